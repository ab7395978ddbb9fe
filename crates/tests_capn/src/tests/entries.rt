//! Copies of the journal's entries. That a copy is what it is a copy of is proved: it is tested that there is one.
use rpc_journal::{Advanced, Counts, Delivery, Ended, JournalEntry, MadeCall, Origin, Outcome};
use rpc_msg::{
    CallId, Exception, ExceptionKind, ExportId, Items, Memory, Message, ObjectId, Path, Payload,
    PlainMessage, PromiseId, RefId, Stamp, TaskId, Text, Vat,
};
use std::alloc::Global;

const STAMP: Stamp = Stamp {
    vat: Vat::B,
    reference: RefId(9),
    index: 10,
};

fn with_contents(number: u32, payload: Payload, refs: Items<RefId>) -> JournalEntry {
    match number {
        0 => JournalEntry::Made(
            Vat::B,
            MadeCall {
                reference: RefId(0),
                index: 2,
                call: CallId(1),
                interface: 7,
                method: 8,
                payload,
                refs,
            },
        ),
        1 => JournalEntry::Delivered(
            Vat::A,
            Delivery {
                task: TaskId(5),
                object: ObjectId(6),
                stamp: STAMP,
                interface: 7,
                method: 8,
                payload,
                refs,
            },
        ),
        _ => JournalEntry::Answered(Vat::B, TaskId(3), Outcome::Results(payload), refs),
    }
}

fn with_exception(alloc: Global, number: u32, exception: Exception) -> JournalEntry {
    match number {
        3 => JournalEntry::Ended(
            Vat::A,
            Ended {
                call: CallId(1),
                outcome: Outcome::Exception(exception),
                refs: Items::new(alloc),
            },
        ),
        _ => JournalEntry::Rejected(Vat::A, PromiseId(4), exception),
    }
}

fn without_lists(number: u32) -> JournalEntry {
    match number {
        5 => JournalEntry::Born(Vat::A, RefId(1), Origin::Field(CallId(2), Path::root())),
        6 => JournalEntry::Advanced(Vat::B, RefId(3), Advanced::Embargoed),
        7 => JournalEntry::Down(Vat::A, 33),
        _ => JournalEntry::Sent(Vat::B, Message::Plain(PlainMessage::Other(9))),
    }
}

fn of_contents(alloc: Global, number: u32) -> Result<JournalEntry, Memory> {
    let payload = Payload::root_capability(alloc)?;
    let refs = Items::one(alloc, RefId(4)).ok().ok_or(Memory)?;
    Ok(with_contents(number, payload, refs))
}

fn of_exception(alloc: Global, number: u32) -> Result<JournalEntry, Memory> {
    let reason = Text::new(alloc, "the line is cut")?;
    let kind = ExceptionKind::Disconnected;
    Ok(with_exception(alloc, number, Exception { kind, reason }))
}

fn one_pair(alloc: Global, export: u32, count: u32) -> Result<Items<(ExportId, u32)>, Memory> {
    Items::one(alloc, (ExportId(export), count))
        .ok()
        .ok_or(Memory)
}

fn counts(alloc: Global, export: u32, import: u32) -> Result<Counts, Memory> {
    let exports = one_pair(alloc, 0, export)?;
    let imports = one_pair(alloc, 1, import)?;
    Ok(Counts { exports, imports })
}

fn tables(alloc: Global) -> Result<JournalEntry, Memory> {
    let a = counts(alloc, 1, 2)?;
    let b = counts(alloc, 3, 4)?;
    Ok(JournalEntry::Tables(a, b))
}

/// Entries with lists and texts, and some without, by their numbers.
const ENTRIES: u32 = 10;

fn entry(alloc: Global, number: u32) -> Result<JournalEntry, Memory> {
    match number {
        0..=2 => of_contents(alloc, number),
        3..=4 => of_exception(alloc, number),
        5..=8 => Ok(without_lists(number)),
        _ => tables(alloc),
    }
}

// If the first try has no memory for it, the second has.
fn copied(alloc: Global, entry: &JournalEntry) -> Result<JournalEntry, Memory> {
    match entry.copy(alloc) {
        Ok(copy) => Ok(copy),
        Err(Memory) => entry.copy(alloc),
    }
}

fn outlives_a_copy(alloc: Global, entry: &JournalEntry) -> Result<(), Memory> {
    let _copy = copied(alloc, entry)?;
    Ok(())
}

fn entry_is_copied(alloc: Global, number: u32) -> Result<(), Memory> {
    let entry = entry(alloc, number)?;
    outlives_a_copy(alloc, &entry)
}

/// Holds whichever allocation of a copy is refused: run it with `rt try --test --fail-alloc N` too.
#[test]
fn each_entry_is_copied(rt: HostRuntime) -> Result<(), Memory> {
    for number in 0..ENTRIES {
        entry_is_copied(rt.alloc(), number)?;
    }
    Ok(())
}
