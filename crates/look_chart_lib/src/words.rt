//! The labels of messages: the words of `look_lines`.
use look_books::{Books, Breach, Moment};
use look_lines::{Ends, View, write_breach_words, write_line};
use look_pieces::Side;
use rpc_codec::EnvelopeFault;
use rpc_look_lib::{Judged, Naming};
use std::alloc::{AllocError, Global};
use std::fmt::Write;

/// What stands before where a capability was given.
const GIVEN: &str = " (given in ";

/// By what messages are told.
#[derive(Drop)]
pub(crate) struct Wording {
    pub(crate) ends: Ends,
    pub(crate) naming: Naming,
}

/// The words of a line, without its number, its time and its direction.
fn words_of(side: Side, line: &str) -> &str {
    let sign = match side {
        Side::Client => "> ",
        Side::Server => "< ",
    };
    match line.split_once(sign) {
        Some((_front, words)) => words.trim_end(),
        None => line,
    }
}

/// The words without where capabilities were given, which stands in parentheses.
fn write_short(out: &mut String, words: &str) -> Result<(), AllocError> {
    let mut rest = words;
    for _ in 0..words.len() {
        let Some((before, given)) = rest.split_once(GIVEN) else {
            break;
        };
        let Some((_given, behind)) = given.split_once(')') else {
            break;
        };
        out.push_str(before)?;
        rest = behind;
    }
    out.push_str(rest)
}

/// What is said of a message.
#[derive(Drop)]
pub(crate) struct Words {
    /// All of it.
    pub(crate) whole: String,
    /// Without where capabilities were given.
    pub(crate) short: String,
}

/// What is said of a message, by the books before it.
pub(crate) fn message_words(
    alloc: Global,
    wording: &Wording,
    books: &Books,
    side: Side,
    moment: Moment,
    judged: &Judged,
) -> Result<Words, AllocError> {
    let view = View {
        books,
        ends: &wording.ends,
        names: &wording.naming,
    };
    let mut line = String::new(alloc);
    let (envelope, heading) = (&judged.envelope, judged.heading);
    write_line(&mut line, &view, side, moment, envelope, heading)?;
    let words = words_of(side, line.as_str());
    let mut short = String::new(alloc);
    write_short(&mut short, words)?;
    let whole = String::from_str(alloc, words)?;
    Ok(Words { whole, short })
}

/// What is said of a frame that is no message.
pub(crate) fn none_words(alloc: Global, fault: EnvelopeFault) -> Result<Words, AllocError> {
    let whole = format!(in alloc; "no message: {fault}")?;
    let short = String::from_str(alloc, whole.as_str())?;
    Ok(Words { whole, short })
}

/// What of a message breaks the protocol.
pub(crate) fn breach_words(
    alloc: Global,
    ends: &Ends,
    side: Side,
    breach: &Breach,
) -> Result<String, AllocError> {
    let mut words = String::new(alloc);
    write_breach_words(&mut words, ends, side, breach)?;
    Ok(words)
}

/// Why nothing of an end is read any more.
pub(crate) fn end_words(alloc: Global, name: &str, why: &str) -> Result<String, AllocError> {
    format!(in alloc; "{why}; nothing of the {name} is read any more")
}

/// That an end ends inside a message.
pub(crate) fn rest_words(alloc: Global, name: &str, count: usize) -> Result<String, AllocError> {
    format!(in alloc; "the {name} ends inside a message, of which {count} bytes came")
}
