ghost use Rattle.std.specs.Prelude.{◌≡◌, [], ◌∷◌, ◌++◌, List, IfOk, OnOk, IsTrue, not, ◌&&◌};
ghost use Rattle.rpc_journal.specs.declared.entry.JournalEntry.TheVariants as entry;
ghost use Rattle.rpc_journal.specs.declared.entry.JournalEntry.{JournalEntry as Entry};
ghost use Rattle.rpc_check.specs.Breaches.{gets_nothing, agrees};
ghost use Rattle.rpc_check.specs.Kept.{WaysFor, IsCounted};
ghost use Rattle.rpc_msg.specs.declared.ids.Vat.TheVariants.{A, B};

use crate::agreement::agree;
use crate::way::Way;
use rpc_journal::{Counts, JournalEntry};
use rpc_msg::{Memory, Message, Vat};
use std::alloc::Global;

/// The messages on their way, by the vat that sent them.
#[derive(Drop)]
pub(crate) struct Ways {
    pub(crate) a: Way,
    pub(crate) b: Way,
}

impl Ways {
    pub(crate) fn new(alloc: Global) -> Self
        ensures { WaysFor result [] }
    {
        Ways {
            a: Way::new(alloc),
            b: Way::new(alloc),
        }
    }

    /// Takes an entry; whether what it gets was sent. If not, nothing is known of the rest.
    pub(crate) fn take(&mut self, alloc: Global, entry: &JournalEntry) -> Result<bool, Memory>
        ensures matched { IfOk result (λ kept. (h : List Entry) → WaysFor self.old h → kept ≡ not (gets_nothing h entry.now)) }
        ensures rest { IfOk result (λ kept. IsTrue kept → (h : List Entry) → WaysFor self.old h → WaysFor self.new (h ++ entry.now ∷ [])) }
    {
        match entry {
            JournalEntry::Sent(vat, message) => {
                self.send(alloc, *vat, message)?;
                Ok(true)
            }
            JournalEntry::Got(vat) => {
                let kept = self.receive(*vat)?;
                Ok(kept)
            }
            _ => Ok(true),
        }
    }

    /// Counts the lists that messages on their way released. After a refusal nothing is known of the rest.
    pub(crate) fn count(&mut self) -> Result<(), Memory>
        ensures same { OnOk result ((h : List Entry) → WaysFor self.old h → WaysFor self.new h) }
        ensures counted { OnOk result (IsCounted self.new) }
    {
        self.a.count(self.b.said.lists.as_slice())?;
        self.b.count(self.a.said.lists.as_slice())?;
        Ok(())
    }

    /// Whether the counts of both vats fit each other and what is on its way.
    pub(crate) fn agree(&self, alloc: Global, a: &Counts, b: &Counts) -> Result<bool, Memory>
        requires { IsCounted self.now }
        ensures { IfOk result (λ fits. (h : List Entry) → WaysFor self.now h → fits ≡ (agrees h A a.now.exports b.now.imports && agrees h B b.now.exports a.now.imports)) }
    {
        let of_a = agree(
            alloc,
            &a.exports,
            &b.imports,
            &self.a.handed_on,
            &self.b.releases.counted,
        )?;
        let of_b = agree(
            alloc,
            &b.exports,
            &a.imports,
            &self.b.handed_on,
            &self.a.releases.counted,
        )?;
        Ok(of_a && of_b)
    }

    fn send(&mut self, alloc: Global, vat: Vat, message: &Message) -> Result<(), Memory>
        ensures { OnOk result ((h : List Entry) → WaysFor self.old h → WaysFor self.new (h ++ entry.Sent vat message.now ∷ [])) }
    {
        match vat {
            Vat::A => self.a.send(alloc, message, &self.b.said)?,
            Vat::B => self.b.send(alloc, message, &self.a.said)?,
        }
        Ok(())
    }

    fn receive(&mut self, vat: Vat) -> Result<bool, Memory>
        ensures matched { IfOk result (λ kept. (h : List Entry) → WaysFor self.old h → kept ≡ not (gets_nothing h (entry.Got vat))) }
        ensures rest { IfOk result (λ kept. IsTrue kept → (h : List Entry) → WaysFor self.old h → WaysFor self.new (h ++ entry.Got vat ∷ [])) }
    {
        match vat {
            Vat::A => {
                let kept = self.b.receive()?;
                Ok(kept)
            }
            Vat::B => {
                let kept = self.a.receive()?;
                Ok(kept)
            }
        }
    }
}
