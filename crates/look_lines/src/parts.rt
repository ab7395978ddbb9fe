//! Parts of lines.
use look_books::Kind;
use rpc_msg::{Descriptor, ExceptionKind, Op, Path};
use std::alloc::AllocError;

/// The most characters of a reason that are written.
const MOST_REASON: usize = 200;

/// A time since the first piece, in seconds.
pub(crate) fn write_seconds(out: &mut String, micros: u64) -> Result<(), AllocError> {
    let seconds = micros / 1_000_000;
    let rest = micros % 1_000_000;
    write!(out, "{seconds}.{rest:06}")
}

/// How long something took, by its order of magnitude.
pub(crate) fn write_span(out: &mut String, micros: u64) -> Result<(), AllocError> {
    if micros < 1_000 {
        return write!(out, "{micros} us");
    }
    if micros < 1_000_000 {
        let tenths = (micros + 50) / 100;
        let whole = tenths / 10;
        let tenth = tenths % 10;
        return write!(out, "{whole}.{tenth} ms");
    }
    let hundredths = micros.saturating_add(5_000) / 10_000;
    let whole = hundredths / 100;
    let rest = hundredths % 100;
    write!(out, "{whole}.{rest:02} s")
}

/// The time from one moment to another, where both are known.
pub(crate) fn write_between(
    out: &mut String,
    from: Option<u64>,
    to: Option<u64>,
) -> Result<(), AllocError> {
    let (Some(from), Some(to)) = (from, to) else {
        return out.push_str("?");
    };
    write_span(out, to.saturating_sub(from))
}

/// The places of a path, with dots between them.
pub(crate) fn write_path(out: &mut String, between: &str, path: &Path) -> Result<bool, AllocError> {
    let mut some = false;
    for step in path.as_slice() {
        if let Op::Field(place) = step {
            if some {
                out.push('.')?;
            } else {
                out.push_str(between)?;
            }
            some = true;
            write!(out, "{place}")?;
        }
    }
    Ok(some)
}

/// A descriptor.
pub(crate) fn write_descriptor(
    out: &mut String,
    descriptor: &Descriptor,
) -> Result<(), AllocError> {
    match descriptor {
        Descriptor::None => out.push_str("none"),
        Descriptor::SenderHosted(export) => write!(out, "senderHosted {}", export.0),
        Descriptor::SenderPromise(export) => write!(out, "senderPromise {}", export.0),
        Descriptor::ReceiverHosted(export) => write!(out, "receiverHosted {}", export.0),
        Descriptor::ReceiverAnswer(question, path) => {
            write!(out, "receiverAnswer {}", question.0)?;
            let _some = write_path(out, ".", path)?;
            Ok(())
        }
    }
}

/// The descriptors of a message, in brackets.
pub(crate) fn write_descriptors(
    out: &mut String,
    descriptors: &[Descriptor],
) -> Result<(), AllocError> {
    let mut before = " [";
    for descriptor in descriptors {
        out.push_str(before)?;
        before = ", ";
        write_descriptor(out, descriptor)?;
    }
    if descriptors.is_empty() {
        return Ok(());
    }
    out.push(']')
}

fn kind_word(kind: ExceptionKind) -> &'static str {
    match kind {
        ExceptionKind::Failed => "failed",
        ExceptionKind::Overloaded => "overloaded",
        ExceptionKind::Disconnected => "disconnected",
        ExceptionKind::Unimplemented => "unimplemented",
    }
}

fn write_quoted_char(out: &mut String, letter: char) -> Result<(), AllocError> {
    match letter {
        '"' => out.push_str("\\\""),
        '\\' => out.push_str("\\\\"),
        '\n' => out.push_str("\\n"),
        '\r' => out.push_str("\\r"),
        '\t' => out.push_str("\\t"),
        _ if letter < ' ' || letter == '\u{7f}' => {
            let code = u32::from(letter);
            write!(out, "\\u{code:04x}")
        }
        _ => out.push(letter),
    }
}

/// Writes a text in quotes, of which at most so many characters are written; with the escapes of JSON.
pub fn write_quoted(out: &mut String, text: &str, most: usize) -> Result<(), AllocError> {
    out.push('"')?;
    for letter in text.chars().take(most) {
        write_quoted_char(out, letter)?;
    }
    out.push('"')
}

/// An exception: its kind, and its reason in quotes, of which at most 200 characters are written.
pub(crate) fn write_exception(
    out: &mut String,
    kind: ExceptionKind,
    reason: &str,
) -> Result<(), AllocError> {
    let word = kind_word(kind);
    write!(out, "{word} ")?;
    write_quoted(out, reason, MOST_REASON)
}

/// The name of a kind of message.
pub(crate) fn write_kind(out: &mut String, kind: Kind) -> Result<(), AllocError> {
    match kind {
        Kind::Unimplemented => out.push_str("Unimplemented"),
        Kind::Abort => out.push_str("Abort"),
        Kind::Bootstrap => out.push_str("Bootstrap"),
        Kind::Call => out.push_str("Call"),
        Kind::Return => out.push_str("Return"),
        Kind::Finish => out.push_str("Finish"),
        Kind::Resolve => out.push_str("Resolve"),
        Kind::Release => out.push_str("Release"),
        Kind::Disembargo => out.push_str("Disembargo"),
        Kind::Other(number) => write_other(out, number),
    }
}

fn write_other(out: &mut String, number: u16) -> Result<(), AllocError> {
    match number {
        7 => out.push_str("ObsoleteSave"),
        9 => out.push_str("ObsoleteDelete"),
        10 => out.push_str("Provide"),
        11 => out.push_str("Accept"),
        12 => out.push_str("Join"),
        _ => write!(out, "Unknown{number}"),
    }
}
