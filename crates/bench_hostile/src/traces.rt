//! A trace that takes long to be checked, if each Finish goes over all that the Return gave.

use crate::astray::Astray;
use crate::contents::null_with;
use crate::played::Played;
use rpc_check::{Verdict, check};
use rpc_journal::{Counts, JournalEntry};
use rpc_msg::{
    Descriptor, ExportId, Finish, Items, Message, PlainMessage, QuestionId, Return, ReturnBody, Vat,
};
use std::alloc::Global;

/// A Return with so many descriptors, so many Finishes of its question, each of which gives all of them back, and the counts
/// that these messages make.
pub(crate) fn with_finishes(alloc: Global, size: u16) -> Result<Played, Astray> {
    let entries = entries_of(alloc, size)?;
    match check(alloc, &entries)? {
        Verdict::Good(0) => Ok(Played {
            steps: u64::from(size) + 3,
            sent: u64::from(size) + 1,
            passed: u64::from(size),
            flags: u64::from(size),
            delivered: 0,
        }),
        _ => Err(Astray::OtherCounts),
    }
}

fn entries_of(alloc: Global, size: u16) -> Result<Vec<JournalEntry>, Astray> {
    let mut entries = Vec::new(alloc);
    entries.push(JournalEntry::Head)?;
    entries.push(giving(alloc, size)?)?;
    for _ in 0..size {
        entries.push(giving_back())?;
    }
    entries.push(counted(alloc, size)?)?;
    Ok(entries)
}

fn giving(alloc: Global, size: u16) -> Result<JournalEntry, Astray> {
    let mut descriptors = Items::new(alloc);
    for id in 0..size {
        descriptors.push(Descriptor::SenderHosted(ExportId(u32::from(id))))?;
    }
    let payload = null_with(alloc, usize::from(size))?;
    let said = PlainMessage::Return(Return {
        answer: QuestionId(0),
        release_param_caps: true,
        body: ReturnBody::Results(payload, descriptors),
    });
    Ok(JournalEntry::Sent(Vat::A, Message::Plain(said)))
}

fn giving_back() -> JournalEntry {
    let said = PlainMessage::Finish(Finish {
        question: QuestionId(0),
        release_result_caps: true,
    });
    JournalEntry::Sent(Vat::B, Message::Plain(said))
}

// Vat a has given each id once, and each Finish that is on its way takes one off.
fn counted(alloc: Global, size: u16) -> Result<JournalEntry, Astray> {
    let mut exports = Items::new(alloc);
    for id in 0..size {
        exports.push((ExportId(u32::from(id)), u32::from(size) + 1))?;
    }
    let a = Counts {
        exports,
        imports: Items::new(alloc),
    };
    let b = Counts {
        exports: Items::new(alloc),
        imports: Items::new(alloc),
    };
    Ok(JournalEntry::Tables(a, b))
}
