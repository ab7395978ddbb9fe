ghost use Rattle.std.specs.Prelude.{◌≡◌, [], ◌∷◌, ◌++◌, List, IfOk, OnOk, IsTrue, not};
ghost use Rattle.rpc_journal.specs.declared.entry.JournalEntry.TheVariants as entry;
ghost use Rattle.rpc_journal.specs.declared.entry.JournalEntry.{JournalEntry as Entry};
ghost use Rattle.rpc_check.specs.Breaches.{breaks_order};
ghost use Rattle.rpc_check.specs.Kept.{CallsFor};

use crate::lines::{Lines, Place};
use rpc_journal::{Delivery, JournalEntry, MadeCall};
use rpc_msg::{Memory, Vat};
use std::alloc::Global;

/// The references of both vats.
#[derive(Drop)]
pub(crate) struct Calls {
    pub(crate) a: Lines,
    pub(crate) b: Lines,
}

impl Calls {
    pub(crate) fn new(alloc: Global) -> Self
        ensures { CallsFor result [] }
    {
        Calls {
            a: Lines::new(alloc),
            b: Lines::new(alloc),
        }
    }

    /// Takes an entry; whether it keeps the order of calls. If not, nothing is known of the rest.
    pub(crate) fn take(&mut self, alloc: Global, entry: &JournalEntry) -> Result<bool, Memory>
        ensures order { IfOk result (λ kept. (h : List Entry) → CallsFor self.old h → kept ≡ not (breaks_order h entry.now)) }
        ensures rest { IfOk result (λ kept. IsTrue kept → (h : List Entry) → CallsFor self.old h → CallsFor self.new (h ++ entry.now ∷ [])) }
    {
        match entry {
            JournalEntry::Made(vat, made) => {
                self.make(alloc, *vat, made)?;
                Ok(true)
            }
            JournalEntry::Delivered(vat, delivery) => Ok(self.deliver(*vat, delivery)),
            _ => Ok(true),
        }
    }

    fn make(&mut self, alloc: Global, vat: Vat, made: &MadeCall) -> Result<(), Memory>
        ensures { OnOk result ((h : List Entry) → CallsFor self.old h → CallsFor self.new (h ++ entry.Made vat made.now ∷ [])) }
    {
        match vat {
            Vat::A => self.a.make(alloc, made.reference.0, made.index)?,
            Vat::B => self.b.make(alloc, made.reference.0, made.index)?,
        }
        Ok(())
    }

    fn deliver(&mut self, vat: Vat, delivery: &Delivery) -> bool
        ensures order { (h : List Entry) → CallsFor self.old h → result ≡ not (breaks_order h (entry.Delivered vat delivery.now)) }
        ensures rest { IsTrue result → (h : List Entry) → CallsFor self.old h → CallsFor self.new (h ++ entry.Delivered vat delivery.now ∷ []) }
    {
        let place = Place {
            vat,
            object: delivery.object,
        };
        let number = delivery.stamp.reference.0;
        match delivery.stamp.vat {
            Vat::A => self.a.deliver(number, delivery.stamp.index, place),
            Vat::B => self.b.deliver(number, delivery.stamp.index, place),
        }
    }
}
