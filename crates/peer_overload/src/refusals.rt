//! The peer's questions that were refused and are not finished.
ghost use Rattle.std.specs.Prelude.{◌≡◌, ◌==◌, OnOk, OnErr, IsSome, option_copied};
ghost use Rattle.std.specs.FinMap as map;

use rpc_msg::{Memory, QuestionId};
use std::alloc::Global;
use std::collections::BTreeMap;
use std::marker::Model;

/// What was refused.
#[derive(Clone, Copy, Debug, PartialEq, Eq, Drop)]
pub(crate) enum Refusal {
    /// A Bootstrap, or a Call whose results were to go to the peer.
    Plain,
    /// A tail call, which no Return of the peer took so far.
    Tail,
    /// A tail call that one took.
    TakenTail,
}

/// Refused questions: seen by contracts as a finite map.
#[derive(Drop)]
pub(crate) struct Refusals {
    by_id: BTreeMap<u32, Refusal>,
}

impl Model for Refusals {
    ghost use Rattle.std.specs.Ordering.{nat_cmp};
    ghost use Rattle.std.specs.Coded.{coded_ℕ};
    ghost use Rattle.std.specs.FinMap as map;
    ghost use Rattle.peer_overload.specs.declared.refusals.Refusal.{Refusal};
    ghost use Rattle.peer_overload.specs.contracts.refusals.Refusal as refusal;

    ghost Value = { map.FinMap nat_cmp Refusal };

    ghost coded = { map.code coded_ℕ refusal.the_row.coded };

    ghost view = { λ a. map.from_entries a.by_id.entries };
}

impl Refusals {
    /// None. Takes no memory.
    pub(crate) fn new(alloc: Global) -> Refusals
        ensures { result ≡ map.empty }
    {
        Refusals {
            by_id: BTreeMap::new(alloc),
        }
    }

    /// How many there are.
    pub(crate) fn len(&self) -> usize
        ensures { result ≡ map.len self.now }
    {
        self.by_id.len()
    }

    /// What was refused under that id.
    pub(crate) fn get(&self, id: QuestionId) -> Option<&Refusal>
        ensures { option_copied result ≡ map.get self.now id.0 }
    {
        self.by_id.get(&id.0)
    }

    /// Whether that question was refused.
    pub(crate) fn has(&self, id: QuestionId) -> bool
        ensures { result ≡ map.contains_key self.now id.0 }
    {
        self.get(id).is_some()
    }

    /// Puts one under its id. `Memory` leaves all as it was.
    pub(crate) fn put(&mut self, id: QuestionId, refusal: Refusal) -> Result<(), Memory>
        ensures ok { OnOk result (self.new ≡ map.insert self.old id.0 refusal) }
        ensures err { OnErr result (self.new ≡ self.old) }
    {
        self.by_id.insert(id.0, refusal)?;
        Ok(())
    }

    /// Puts one in place of that which is there. Takes no memory.
    pub(crate) fn set(&mut self, id: QuestionId, refusal: Refusal)
        requires { IsSome (map.get self.old id.0) }
        ensures { self.new ≡ map.insert self.old id.0 refusal }
    {
        let Ok(_) = self.by_id.insert(id.0, refusal) else {
            unreachable!()
        };
    }

    /// Takes the one of that question out. Takes no memory.
    pub(crate) fn remove(&mut self, id: QuestionId)
        ensures { self.new ≡ map.remove self.old id.0 }
    {
        self.by_id.remove(&id.0);
    }
}
