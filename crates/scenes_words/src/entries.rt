//! Entries of a journal.
use crate::messages::write_message;
use crate::parts::{
    letter, write_exception, write_numbered, write_path, write_payload, write_references,
    write_said, write_stamp,
};
use rpc_journal::{Counts, Delivery, Ended, JournalEntry, MadeCall, Origin, Outcome};
use rpc_msg::{ExportId, Items, Vat};
use std::alloc::AllocError;
use std::fmt::Write;

/// What a vat's application did, or what reached it, stands behind `a:`; what the vat sent, behind `a>`.
pub fn write_entry(text: &mut String, entry: &JournalEntry) -> Result<(), AllocError> {
    match entry {
        JournalEntry::Head => text.push_str("head")?,
        JournalEntry::Sent(vat, message) => {
            write!(text, "{}> ", letter(*vat))?;
            write_message(text, message)?;
        }
        JournalEntry::Tables(a, b) => {
            write_counts(text, Vat::A, a)?;
            text.push_str(", ")?;
            write_counts(text, Vat::B, b)?;
        }
        JournalEntry::Made(vat, made) => write_made(text, *vat, made)?,
        JournalEntry::Delivered(vat, delivery) => write_delivery(text, *vat, delivery)?,
        JournalEntry::Answered(vat, task, outcome, refs) => {
            write_said(text, *vat, "answers", task.0)?;
            write_outcome(text, outcome)?;
            write_references(text, refs)?;
        }
        JournalEntry::Ended(vat, ended) => write_ended(text, *vat, ended)?,
        JournalEntry::Rejected(vat, promise, exception) => {
            write!(text, "{}: promise {} is ", letter(*vat), promise.0)?;
            write_exception(text, exception)?;
        }
        _ => write_short(text, entry)?,
    }
    Ok(())
}

fn write_short(text: &mut String, entry: &JournalEntry) -> Result<(), AllocError> {
    match entry {
        JournalEntry::Born(vat, reference, origin) => {
            write_said(text, *vat, "ref", reference.0)?;
            write_origin(text, *origin)
        }
        JournalEntry::Asked(vat, call) => write_said(text, *vat, "asks", call.0),
        JournalEntry::Resolved(vat, promise, reference) => {
            write_said(text, *vat, "promise", promise.0)?;
            write_numbered(text, " is ref", reference.0)
        }
        JournalEntry::Dropped(vat, reference) => write_said(text, *vat, "drops", reference.0),
        JournalEntry::Finished(vat, call) => write_said(text, *vat, "finishes", call.0),
        JournalEntry::Advanced(vat, reference, answer) => {
            write_said(text, *vat, "ref", reference.0)?;
            write!(text, " {answer:?}")
        }
        JournalEntry::Refused(vat, number) => {
            write_said(text, *vat, "refused", u64::from(*number))
        }
        JournalEntry::Got(vat) => write!(text, "{}: got", letter(*vat)),
        JournalEntry::Down(vat, number) => write_said(text, *vat, "down", u64::from(*number)),
        _ => text.push_str("another"),
    }
}

fn write_origin(text: &mut String, origin: Origin) -> Result<(), AllocError> {
    match origin {
        Origin::Object(object) => write_numbered(text, " of object", object.0),
        Origin::Promise(promise) => write_numbered(text, " of promise", promise.0),
        Origin::Clone(reference) => write_numbered(text, " of ref", reference.0),
        Origin::Field(call, path) => {
            write_numbered(text, " of call", call.0)?;
            write_path(text, path)
        }
    }
}

fn write_made(text: &mut String, vat: Vat, made: &MadeCall) -> Result<(), AllocError> {
    write!(
        text,
        "{}: calls {} by {}#{}, {}.{} ",
        letter(vat),
        made.call.0,
        made.reference.0,
        made.index,
        made.interface,
        made.method
    )?;
    write_payload(text, &made.payload)?;
    write_references(text, &made.refs)
}

/// A call that is delivered.
pub fn write_delivery(text: &mut String, vat: Vat, delivery: &Delivery) -> Result<(), AllocError> {
    write!(
        text,
        "{}: task {} of object {}, {}.{} ",
        letter(vat),
        delivery.task.0,
        delivery.object.0,
        delivery.interface,
        delivery.method
    )?;
    write_payload(text, &delivery.payload)?;
    write_stamp(text, delivery.stamp)?;
    write_references(text, &delivery.refs)
}

/// A call that has ended.
pub fn write_ended(text: &mut String, vat: Vat, ended: &Ended) -> Result<(), AllocError> {
    write!(text, "{}: call {} ended", letter(vat), ended.call.0)?;
    write_outcome(text, &ended.outcome)?;
    write_references(text, &ended.refs)
}

fn write_outcome(text: &mut String, outcome: &Outcome) -> Result<(), AllocError> {
    text.push_str(", ")?;
    match outcome {
        Outcome::Results(payload) => write_payload(text, payload),
        Outcome::Exception(exception) => write_exception(text, exception),
    }
}

/// The counts of a vat, by rising id.
pub fn write_counts(text: &mut String, vat: Vat, counts: &Counts) -> Result<(), AllocError> {
    write!(text, "{}: exports", letter(vat))?;
    write_each(text, &counts.exports)?;
    text.push_str(" imports")?;
    write_each(text, &counts.imports)
}

fn write_each(text: &mut String, counts: &Items<(ExportId, u32)>) -> Result<(), AllocError> {
    for (id, count) in counts {
        write!(text, " {}:{count}", id.0)?;
    }
    Ok(())
}
