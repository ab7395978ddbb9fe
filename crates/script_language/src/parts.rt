ghost use Rattle.std.specs.Prelude.{◌≡◌, ◌==◌, ◌<◌, ◌++◌, ◌∷◌, [], false, true, length, All, IfOk, OnOk, IfSome, IfNone, map};
ghost use Rattle.std.specs.List.{slice_split};
ghost use Rattle.script_language.specs.Lines.{is_gap, is_comment};
ghost use Rattle.script_language.specs.Scripts.{texts_of, AreWordsOf};

use std::alloc::{AllocError, Global};

/// The list begins with memory for so many parts, which most have no more than.
const FEW: usize = 8;

/// The parts of a text between the places where a byte stands. There is one part more than such places, and each byte is
/// looked at once.
pub(crate) fn split_at_each(alloc: Global, text: &[u8], mark: u8) -> Result<Vec<&[u8]>, AllocError>
    ensures { IfOk result (λ parts. map (λ part. part.now) parts.items ≡ slice_split (λ c. c == mark) text.now) }
{
    let mut parts = Vec::with_capacity(alloc, FEW)?;
    split_into(&mut parts, text, mark)?;
    Ok(parts)
}

/// Puts these parts into a list, in place of what stands there.
pub(crate) fn split_into<'t>(
    parts: &mut Vec<&'t [u8]>,
    text: &'t [u8],
    mark: u8,
) -> Result<(), AllocError>
    ensures { OnOk result (map (λ part. part.now) parts.new.items ≡ slice_split (λ c. c == mark) text.now) }
{
    parts.clear();
    let mut rest = text;
    while let Some((part, behind)) = split_at_first(rest, mark) {
        parts.push(part)?;
        rest = behind;
    }
    parts.push(rest)?;
    Ok(())
}

/// What stands before the first such byte, and what stands behind it, if there is one.
fn split_at_first(text: &[u8], mark: u8) -> Option<(&[u8], &[u8])>
    ensures found { IfSome result (λ parts. (text.now ≡ parts.0.now ++ mark ∷ parts.1.now) × All (λ c. (c == mark) ≡ false) parts.0.now) }
    ensures none { IfNone result (All (λ c. (c == mark) ≡ false) text.now) }
{
    let at = text.iter().position(|byte| *byte == mark)?;
    Some((&text[..at], &text[at + 1..]))
}

/// The first line of a text, and what stands behind its newline, if there is one; without one the text is the line. The
/// words of the line are put into a list, in place of what stands there, unless it is a comment.
pub(crate) fn next_line<'t>(
    words: &mut Vec<&'t [u8]>,
    text: &'t [u8],
) -> Result<Option<(&'t [u8], &'t [u8])>, AllocError>
    ensures found { IfOk result (λ line. IfSome line (λ parts. (texts_of text.now ≡ parts.0.now ∷ texts_of parts.1.now) × (length parts.1.now < length text.now) × AreWordsOf parts.0.now (map (λ word. word.now) words.new.items))) }
    ensures last { IfOk result (λ line. IfNone line ((texts_of text.now ≡ text.now ∷ []) × AreWordsOf text.now (map (λ word. word.now) words.new.items))) }
{
    if !is_comment(text) {
        return split_words(words, text);
    }
    match split_at_first(text, b'\n') {
        Some((line, behind)) => return Ok(Some((line, behind))),
        None => return Ok(None),
    }
}

/// Whether the text begins with a comment.
fn is_comment(text: &[u8]) -> bool
    ensures { result ≡ is_comment text.now }
{
    match text {
        [first, ..] => *first == b'#',
        [] => false,
    }
}

/// The same, of a text that begins with no comment.
fn split_words<'t>(
    words: &mut Vec<&'t [u8]>,
    text: &'t [u8],
) -> Result<Option<(&'t [u8], &'t [u8])>, AllocError>
    ensures found { IfOk result (λ line. IfSome line (λ parts. (texts_of text.now ≡ parts.0.now ∷ texts_of parts.1.now) × (length parts.1.now < length text.now) × AreWordsOf parts.0.now (map (λ word. word.now) words.new.items))) }
    ensures last { IfOk result (λ line. IfNone line ((texts_of text.now ≡ text.now ∷ []) × AreWordsOf text.now (map (λ word. word.now) words.new.items))) }
{
    words.clear();
    let mut rest = text;
    let mut read = 0;
    while let Some((word, gap, behind)) = split_at_gap(rest) {
        words.push(word)?;
        if gap == b'\n' {
            return Ok(Some((&text[..read + word.len()], behind)));
        }
        read += word.len() + 1;
        rest = behind;
    }
    words.push(rest)?;
    Ok(None)
}

/// What stands before the first space or newline, that byte, and what stands behind it, if there is one.
#[inline(always)]
fn split_at_gap(text: &[u8]) -> Option<(&[u8], u8, &[u8])>
    ensures found { IfSome result (λ parts. (text.now ≡ parts.0.now ++ parts.1 ∷ parts.2.now) × All (λ c. is_gap c ≡ false) parts.0.now × (is_gap parts.1 ≡ true)) }
    ensures none { IfNone result (All (λ c. is_gap c ≡ false) text.now) }
{
    let at = text.iter().position(|byte| is_gap(*byte))?;
    Some((&text[..at], text[at], &text[at + 1..]))
}

/// Most bytes are above both, which is seen at once.
#[inline(always)]
fn is_gap(byte: u8) -> bool
    ensures { result ≡ is_gap byte }
{
    byte <= b' ' && (byte == b' ' || byte == b'\n')
}
