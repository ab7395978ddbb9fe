//! What is odd, in words.
use crate::breaches::write_use;
use crate::parts::write_kind;
use look_books::{Oddity, Use};
use rpc_msg::ExportId;
use std::alloc::AllocError;

fn sender_kind(promise: bool) -> &'static str {
    if promise {
        "senderPromise"
    } else {
        "senderHosted"
    }
}

fn write_other_kind(
    out: &mut String,
    usage: Use,
    export: ExportId,
    promise: bool,
    number: u64,
) -> Result<(), AllocError> {
    write_use(out, usage)?;
    let kind = sender_kind(!promise);
    let before = sender_kind(promise);
    write!(out, " {kind} {}, which was {before} in {number}", export.0)
}

/// Writes what is odd, in words.
pub fn write_oddity_words(out: &mut String, oddity: &Oddity) -> Result<(), AllocError> {
    match *oddity {
        Oddity::OtherKind(usage, export, promise, number) => {
            write_other_kind(out, usage, export, promise, number)
        }
        Oddity::ResolvedPromise(usage, export, number) => {
            write_use(out, usage)?;
            write!(
                out,
                " the promise {}, which was resolved in {number}",
                export.0
            )
        }
        Oddity::ReleasesNone(export) => write!(out, "it gives back 0 of export {}", export.0),
        Oddity::ResultsOfTailCall(number) => {
            write!(out, "the tail call {number} is answered with results")
        }
        Oddity::UnknownReturn(_) => out.push_str("it is a Return of unknown kind"),
        Oddity::UnknownKind(kind) => {
            write_kind(out, kind)?;
            out.push_str(" is no message of levels 0 and 1")
        }
    }
}

/// Writes what of a message is odd, as a line.
pub fn write_oddity(out: &mut String, oddity: &Oddity) -> Result<(), AllocError> {
    out.push_str("      odd: ")?;
    write_oddity_words(out, oddity)?;
    out.push('\n')
}
