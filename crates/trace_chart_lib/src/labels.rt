use crate::bars::Embargo;
use crate::reasons::{fault_name, refusal_name};
use rpc_journal::{Advanced, Counts, Delivery, JournalEntry, MadeCall, Origin, Outcome};
use rpc_msg::{Exception, ExceptionKind, ExportId, Items, Op, Path, RefId, Stamp, Vat};
use std::alloc::{AllocError, Global};
use std::fmt::Write;

/// The capabilities of a payload, as an application has them; nothing if there are none.
fn write_references(
    text: &mut String,
    which: &str,
    references: &Items<RefId>,
) -> Result<(), AllocError> {
    let plural = if references.len() > 1 { "s" } else { "" };
    for (place, reference) in references.iter().enumerate() {
        if place == 0 {
            write!(text, " with {which}{plural} {}", reference.0)?;
        } else {
            write!(text, ", {}", reference.0)?;
        }
    }
    Ok(())
}

pub(crate) fn write_exception(text: &mut String, exception: &Exception) -> Result<(), AllocError> {
    let kind = match exception.kind {
        ExceptionKind::Failed => "failed",
        ExceptionKind::Overloaded => "overloaded",
        ExceptionKind::Disconnected => "disconnected",
        ExceptionKind::Unimplemented => "unimplemented",
    };
    write!(text, "exception ({kind}): {}", exception.reason.as_str())
}

pub(crate) fn write_path(text: &mut String, path: &Path) -> Result<(), AllocError> {
    for op in path.as_slice() {
        match op {
            Op::Noop => text.push_str(".noop")?,
            Op::Field(field) => write!(text, ".{field}")?,
        }
    }
    Ok(())
}

pub(crate) fn write_stamp(text: &mut String, stamp: &Stamp) -> Result<(), AllocError> {
    write!(
        text,
        "{}/{} #{}",
        letter(stamp.vat),
        stamp.reference.0,
        stamp.index
    )
}

pub(crate) fn letter(vat: Vat) -> &'static str {
    match vat {
        Vat::A => "a",
        Vat::B => "b",
    }
}

/// What is said of an entry that is no message's; nothing of a message's, a head or counts.
pub(crate) fn entry_label(alloc: Global, entry: &JournalEntry) -> Result<String, AllocError> {
    let mut text = String::new(alloc);
    write_entry(&mut text, entry)?;
    Ok(text)
}

fn write_entry(text: &mut String, entry: &JournalEntry) -> Result<(), AllocError> {
    match entry {
        JournalEntry::Born(_, reference, origin) => write_born(text, reference, origin),
        JournalEntry::Asked(_, call) => {
            write!(text, "asks for the bootstrap object, call {}", call.0)
        }
        JournalEntry::Made(vat, made) => write_made(text, *vat, made),
        JournalEntry::Delivered(_, delivery) => write_delivered(text, delivery),
        JournalEntry::Answered(_, task, outcome, references) => {
            write!(text, "answers task {}", task.0)?;
            write_results(text, outcome, "reference", references)
        }
        JournalEntry::Ended(_, ended) => {
            write!(text, "call {} ends", ended.call.0)?;
            write_results(text, &ended.outcome, "new reference", &ended.refs)
        }
        _ => write_command(text, entry),
    }
}

fn write_results(
    text: &mut String,
    outcome: &Outcome,
    which: &str,
    references: &Items<RefId>,
) -> Result<(), AllocError> {
    write_references(text, which, references)?;
    text.push_str(": ")?;
    match outcome {
        Outcome::Results(_) => text.push_str("results"),
        Outcome::Exception(exception) => write_exception(text, exception),
    }
}

fn write_command(text: &mut String, entry: &JournalEntry) -> Result<(), AllocError> {
    match entry {
        JournalEntry::Resolved(_, promise, reference) => {
            write!(
                text,
                "resolves promise {} to reference {}",
                promise.0, reference.0
            )
        }
        JournalEntry::Rejected(_, promise, exception) => {
            write!(text, "rejects promise {}: ", promise.0)?;
            write_exception(text, exception)
        }
        JournalEntry::Dropped(_, reference) => write!(text, "drops reference {}", reference.0),
        JournalEntry::Finished(_, call) => write!(text, "finishes call {}", call.0),
        JournalEntry::Advanced(_, reference, advanced) => write_advanced(text, reference, advanced),
        JournalEntry::Refused(_, code) => write_refused(text, *code),
        JournalEntry::Down(_, number) => write_down(text, *number),
        _ => Ok(()),
    }
}

fn write_refused(text: &mut String, code: u16) -> Result<(), AllocError> {
    match refusal_name(code) {
        Some(name) => write!(text, "a command is refused: {name} ({code})"),
        None => write!(text, "a command is refused: {code}"),
    }
}

fn write_down(text: &mut String, number: u16) -> Result<(), AllocError> {
    match fault_name(number) {
        Some(name) => write!(text, "goes down: {name} ({number})"),
        None => write!(text, "goes down: {number}"),
    }
}

fn write_born(text: &mut String, reference: &RefId, origin: &Origin) -> Result<(), AllocError> {
    write!(text, "reference {} to ", reference.0)?;
    match origin {
        Origin::Object(object) => write!(text, "object {}", object.0),
        Origin::Promise(promise) => write!(text, "promise {}", promise.0),
        Origin::Clone(other) => write!(text, "what reference {} leads to", other.0),
        Origin::Field(call, path) => {
            write!(text, "the results of call {}", call.0)?;
            write_path(text, path)
        }
    }
}

fn write_made(text: &mut String, vat: Vat, made: &MadeCall) -> Result<(), AllocError> {
    text.push_str("calls ")?;
    write_stamp(
        text,
        &Stamp {
            vat,
            reference: made.reference,
            index: made.index,
        },
    )?;
    write!(text, " as call {}", made.call.0)?;
    write_references(text, "reference", &made.refs)?;
    write!(
        text,
        "; interface {}, method {}",
        made.interface, made.method
    )
}

fn write_delivered(text: &mut String, delivery: &Delivery) -> Result<(), AllocError> {
    text.push_str("delivers ")?;
    write_stamp(text, &delivery.stamp)?;
    write_references(text, "new reference", &delivery.refs)?;
    write!(
        text,
        " to object {}, task {}",
        delivery.object.0, delivery.task.0
    )
}

fn write_advanced(
    text: &mut String,
    reference: &RefId,
    advanced: &Advanced,
) -> Result<(), AllocError> {
    let answer = match advanced {
        Advanced::Nothing => "nothing",
        Advanced::Switched => "switched",
        Advanced::Embargoed => "embargoed",
        Advanced::Broke => "broke",
    };
    write!(text, "advances reference {}: {answer}", reference.0)
}

/// What is said where an embargo begins.
pub(crate) fn begun_label(alloc: Global, embargo: &Embargo) -> Result<String, AllocError> {
    let mut text = String::from_str(alloc, "begins ")?;
    write_embargo(&mut text, embargo)?;
    Ok(text)
}

/// What is said where an embargo ends.
pub(crate) fn lifted_label(alloc: Global, embargo: &Embargo) -> Result<String, AllocError> {
    let mut text = String::from_str(alloc, "lifts ")?;
    write_embargo(&mut text, embargo)?;
    write!(text, " ({} waited)", embargo.waiting)?;
    Ok(text)
}

/// An embargo by its id and its reference, if that is known.
pub(crate) fn write_embargo(text: &mut String, embargo: &Embargo) -> Result<(), AllocError> {
    write!(text, "embargo {}", embargo.id.0)?;
    if let Some(reference) = embargo.reference {
        write!(text, " of reference {}", reference.0)?;
    }
    Ok(())
}

/// What is said of a vat's counts.
pub(crate) fn counts_label(alloc: Global, counts: &Counts) -> Result<String, AllocError> {
    let mut text = String::new(alloc);
    text.push_str("exports: ")?;
    write_counts(&mut text, &counts.exports)?;
    text.push_str("; imports: ")?;
    write_counts(&mut text, &counts.imports)?;
    Ok(text)
}

fn write_counts(text: &mut String, counts: &Items<(ExportId, u32)>) -> Result<(), AllocError> {
    if counts.is_empty() {
        return text.push_str("none");
    }
    for (place, (id, count)) in counts.iter().enumerate() {
        text.push_str(if place == 0 { "" } else { ", " })?;
        write!(text, "{} by {count}", id.0)?;
    }
    Ok(())
}
