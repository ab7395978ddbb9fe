ghost use Rattle.std.specs.Prelude.{◌≡◌, OnOk, List, IfOk, IfErr, string_bytes};
ghost use Rattle.rpc_journal.specs.declared.entry.JournalEntry.{JournalEntry};
ghost use Rattle.trace_write.specs.declared.version.TraceVersion.{TraceVersion};
ghost use Rattle.trace_file.specs.Traces.{IsTrace};
ghost use Rattle.trace_file.specs.Faults.{IsFileFault};
ghost use Rattle.rpc_msg.specs.declared.ids.Vat.TheVariants.{A, B};
ghost use Rattle.trace_file.specs.Shown.{Shows};
ghost use Rattle.trace_file.specs.Counting.{ChangedIf, one_made, one_delivered, Counted};

use crate::fault::FileFault;
use crate::follower::{Follower, follow};
use crate::rows::{Calls, Place, Rows};
use rpc_journal::JournalEntry;
use rpc_msg::{Memory, RefId, Vat};
use std::alloc::Global;

/// What a trace says of the references that made a call, a line for each, by vat and number: `a/0: made 2, delivered 2
/// to b/0`, with the vat and object of its first delivery, or `to -` if none was.
///
/// The faults are those of `follow`.
pub fn show(alloc: Global, trace: &str) -> Result<String, FileFault>
    ensures ok { IfOk result (λ text. (version : TraceVersion) × (es : List JournalEntry) × IsTrace trace.now version es × Shows es (string_bytes text)) }
    ensures fault { IfErr result (λ fault. IsFileFault trace.now fault) }
{
    let mut tally = Tally {
        a: Rows::new(alloc),
        b: Rows::new(alloc),
    };
    match follow(alloc, trace, &mut tally) {
        Ok(_) => {}
        Err(fault) => return Err(fault),
    }
    let mut text = String::new(alloc);
    match tally.a.write(&mut text, Vat::A) {
        Ok(()) => {}
        Err(Memory) => return Err(FileFault::Memory),
    }
    match tally.b.write(&mut text, Vat::B) {
        Ok(()) => return Ok(text),
        Err(Memory) => return Err(FileFault::Memory),
    }
}

/// The calls of both vats' references so far.
#[derive(Drop)]
struct Tally {
    a: Rows,
    b: Rows,
}

impl Follower for Tally {
    ghost takes = { λ old e new. Counted A old.a.tree e new.a.tree × Counted B old.b.tree e new.b.tree };

    fn take(&mut self, _alloc: Global, entry: JournalEntry) -> Result<(), Memory> {
        count(&mut self.a, Vat::A, &entry)?;
        count(&mut self.b, Vat::B, &entry)
    }
}

/// Counts an entry for the references of a vat.
fn count(rows: &mut Rows, vat: Vat, entry: &JournalEntry) -> Result<(), Memory>
    ensures { OnOk result (Counted vat rows.old.tree entry.now rows.new.tree) }
{
    match entry {
        JournalEntry::Made(at, made) => count_made(rows, *at == vat, made.reference),
        JournalEntry::Delivered(at, delivery) => {
            let place = Place {
                vat: *at,
                object: delivery.object,
            };
            let stamp = delivery.stamp;
            count_delivered(rows, stamp.vat == vat, stamp.reference, place)
        }
        _ => Ok(()),
    }
}

/// A call more that was made through a reference, if it is one of these. `Memory` if a growth was refused, or the number would not fit.
fn count_made(rows: &mut Rows, its: bool, reference: RefId) -> Result<(), Memory>
    ensures { OnOk result (ChangedIf its rows.old.tree reference.0 one_made rows.new.tree) }
{
    if !its {
        return Ok(());
    }
    let calls = rows.get(reference.0);
    let Some(made) = calls.made.checked_add(1) else {
        return Err(Memory);
    };
    rows.set(reference.0, Calls { made, ..calls })
}

/// A call more of a reference that was delivered there, if it is one of these. `Memory` if a growth was refused, or the number would not
/// fit.
fn count_delivered(rows: &mut Rows, its: bool, reference: RefId, place: Place) -> Result<(), Memory>
    ensures { OnOk result (ChangedIf its rows.old.tree reference.0 (one_delivered place) rows.new.tree) }
{
    if !its {
        return Ok(());
    }
    let calls = rows.get(reference.0);
    let Some(delivered) = calls.delivered.checked_add(1) else {
        return Err(Memory);
    };
    let first = match calls.first {
        Some(first) => Some(first),
        None => Some(place),
    };
    rows.set(
        reference.0,
        Calls {
            made: calls.made,
            delivered,
            first,
        },
    )
}
