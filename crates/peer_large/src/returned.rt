//! The questions of a vat whose Return broke a limit.
ghost use Rattle.std.specs.Prelude.{◌≡◌, OnOk, OnErr, option_copied};
ghost use Rattle.std.specs.FinMap as map;
ghost use Rattle.peer_large.specs.Sparing.{returned_by};

use crate::limit::Limit;
use rpc_msg::{Memory, QuestionId};
use std::alloc::Global;
use std::collections::BTreeMap;
use std::marker::Model;

/// Questions whose Return broke a limit and whose Finish did not go, each with the limit: seen by contracts as a finite map.
#[derive(Drop)]
pub(crate) struct Returned {
    by_id: BTreeMap<u32, Limit>,
}

impl Model for Returned {
    ghost use Rattle.std.specs.Ordering.{nat_cmp};
    ghost use Rattle.std.specs.Coded.{coded_ℕ};
    ghost use Rattle.std.specs.FinMap as map;
    ghost use Rattle.peer_large.specs.declared.limit.Limit.{Limit};
    ghost use Rattle.peer_large.specs.contracts.limit.Limit as limit;

    ghost Value = { map.FinMap nat_cmp Limit };

    ghost coded = { map.code coded_ℕ limit.the_row.coded };

    ghost view = { λ a. map.from_entries a.by_id.entries };
}

impl Returned {
    /// None. Takes no memory.
    pub(crate) fn new(alloc: Global) -> Returned
        ensures { result ≡ map.empty }
    {
        Returned {
            by_id: BTreeMap::new(alloc),
        }
    }

    fn get(&self, id: QuestionId) -> Option<&Limit>
        ensures { option_copied result ≡ map.get self.now id.0 }
    {
        self.by_id.get(&id.0)
    }

    /// Whether that question is one of them.
    pub(crate) fn has(&self, id: QuestionId) -> bool
        ensures { result ≡ map.contains_key self.now id.0 }
    {
        self.get(id).is_some()
    }

    /// Puts one under its id. `Memory` leaves all as it was.
    pub(crate) fn put(&mut self, id: QuestionId, limit: Limit) -> Result<(), Memory>
        ensures ok { OnOk result (self.new ≡ map.insert self.old id.0 limit) }
        ensures err { OnErr result (self.new ≡ self.old) }
    {
        self.by_id.insert(id.0, limit)?;
        Ok(())
    }

    /// The Return of a question broke a limit: unless its Finish went, it is one of them. `Memory` leaves all as it was.
    pub(crate) fn note(&mut self, went: bool, id: QuestionId, limit: Limit) -> Result<(), Memory>
        ensures { OnOk result (self.new ≡ returned_by went self.old id limit) }
    {
        if went {
            return Ok(());
        }
        self.put(id, limit)
    }

    /// Takes the one of that question out. Takes no memory.
    pub(crate) fn remove(&mut self, id: QuestionId)
        ensures { self.new ≡ map.remove self.old id.0 }
    {
        self.by_id.remove(&id.0);
    }
}
