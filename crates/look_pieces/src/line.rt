//! What a line of a log is.
ghost use Rattle.std.specs.Prelude.{◌≡◌, ◌<◌, [], length, option_map, IfOk, IfSome, IfNone};
ghost use Rattle.look_pieces.specs.Words.{labelled};
ghost use Rattle.look_pieces.specs.Lines.{side_of, is_date, head_by, head_behind, head_of, pairs_of, with_pair, is_end, bytes_of};

use crate::clock::read_clock;
use crate::digits::{are_digits, read_hex, read_number};
use crate::piece::Side;
use crate::words::cut;
use std::alloc::{AllocError, Global};

/// The head of a piece: `> 2026/11/29 06:51:34.000213334  length=48 from=0 to=47`.
#[derive(Clone, Copy, Debug, PartialEq, Eq, Drop)]
pub struct Head {
    /// Who sent the piece.
    pub side: Side,
    /// The time of day, in microseconds.
    pub clock: u64,
    /// How many bytes the piece has.
    pub length: u64,
    /// How many bytes that end sent before.
    pub from: u64,
}

fn read_side(word: &[u8]) -> Option<Side>
    ensures { result ≡ side_of word.now }
{
    match word {
        [b'>'] => Some(Side::Client),
        [b'<'] => Some(Side::Server),
        _ => None,
    }
}

/// A day as `2026/11/29`.
fn is_date(word: &[u8]) -> bool
    ensures { result ≡ is_date word.now }
{
    let (year, rest) = cut(word, b'/');
    let (month, day) = cut(rest, b'/');
    year.len() == 4
        && month.len() == 2
        && day.len() == 2
        && are_digits(year)
        && are_digits(month)
        && are_digits(day)
}

/// The number behind a label, as of `length=48`.
fn read_labelled(label: &[u8], word: &[u8]) -> Option<u64>
    ensures { result ≡ labelled label.now word.now }
{
    let digits = word.strip_prefix(label)?;
    read_number(digits)
}

/// A head of these parts, each if it was read. Its bytes are at least one, and `to` is where the last of them stands.
fn join_head(
    side: Option<Side>,
    clock: Option<u64>,
    length: Option<u64>,
    from: Option<u64>,
    to: Option<u64>,
) -> Option<Head>
    ensures { result ≡ head_by side clock length from to }
{
    let side = side?;
    let clock = clock?;
    let length = length?;
    let from = from?;
    let to = to?;
    if to < from || to - from != length.saturating_sub(1) || length == 0 {
        return None;
    }
    Some(Head {
        side,
        clock,
        length,
        from,
    })
}

/// The head that a line is, behind its mark, date and time.
fn read_behind(mark: &[u8], date: &[u8], clock: &[u8], line: &[u8]) -> Option<Head>
    ensures { result ≡ head_behind mark.now date.now clock.now line.now }
{
    let (gap, rest) = cut(line, b' ');
    let (length, rest) = cut(rest, b' ');
    let (from, to) = cut(rest, b' ');
    if !gap.is_empty() || !is_date(date) {
        return None;
    }
    let side = read_side(mark);
    let clock = read_clock(clock);
    let length = read_labelled(b"length=", length);
    let from = read_labelled(b"from=", from);
    let to = read_labelled(b"to=", to);
    join_head(side, clock, length, from, to)
}

/// The head that a line is, if it is one.
#[tactic(auto, unfolding(crate::specs::Lines::head_of))]
pub(crate) fn read_head(line: &[u8]) -> Option<Head>
    ensures { result ≡ head_of line.now }
{
    let (mark, rest) = cut(line, b' ');
    let (date, rest) = cut(rest, b' ');
    let (clock, rest) = cut(rest, b' ');
    read_behind(mark, date, clock, rest)
}

/// A blank and two digits at the front of a text: the byte, and what stands behind them.
fn first_pair(text: &[u8]) -> Option<(u8, &[u8])>
    ensures found { IfSome result (λ p. (pairs_of text.now ≡ with_pair p.0 (pairs_of p.1.now)) × (length p.1.now < length text.now)) }
    ensures none { IfNone result (pairs_of text.now ≡ ([], text.now)) }
{
    let [b' ', high, low, behind @ ..] = text else {
        return None;
    };
    let high = read_hex(*high)?;
    let low = read_hex(*low)?;
    Some((16 * high + low, behind))
}

/// Whether a line of bytes may end so: at its end, or with two blanks and any text.
fn is_end(text: &[u8]) -> bool
    ensures { result ≡ is_end text.now }
{
    match text {
        [] => true,
        [b' ', b' ', ..] => true,
        _ => false,
    }
}

/// The bytes of a line, if it is one of bytes.
pub(crate) fn read_bytes(alloc: Global, line: &[u8]) -> Result<Option<Vec<u8>>, AllocError>
    ensures { IfOk result (λ bytes. option_map (λ b. b.items) bytes ≡ bytes_of line.now) }
{
    let mut bytes = Vec::new(alloc);
    let mut rest = line;
    'pairs: while let Some((byte, behind)) = first_pair(rest) {
        bytes.push(byte)?;
        rest = behind;
    }
    if bytes.is_empty() || !is_end(rest) {
        return Ok(None);
    }
    Ok(Some(bytes))
}
