//! The questions of a vat that are open.
ghost use Rattle.std.specs.Prelude.{◌≡◌, OnOk, OnErr, IsSome, option_copied};
ghost use Rattle.std.specs.FinMap as map;

use rpc_msg::{Memory, QuestionId};
use std::alloc::Global;
use std::collections::BTreeMap;
use std::marker::Model;

/// A question whose Return did not come.
#[derive(Clone, Copy, Debug, PartialEq, Eq, Drop)]
pub(crate) enum Awaited {
    /// The vat sent no Finish of it.
    Asked,
    /// Its Finish is held back, with that `releaseResultCaps`.
    Finished(bool),
}

/// Questions by their ids: seen by contracts as a finite map.
#[derive(Drop)]
pub(crate) struct Questions {
    by_id: BTreeMap<u32, Awaited>,
}

impl Model for Questions {
    ghost use Rattle.std.specs.Ordering.{nat_cmp};
    ghost use Rattle.std.specs.Coded.{coded_ℕ};
    ghost use Rattle.std.specs.FinMap as map;
    ghost use Rattle.peer_finishes.specs.declared.questions.Awaited.{Awaited};
    ghost use Rattle.peer_finishes.specs.contracts.questions.Awaited as awaited;

    ghost Value = { map.FinMap nat_cmp Awaited };

    ghost coded = { map.code coded_ℕ awaited.the_row.coded };

    ghost view = { λ a. map.from_entries a.by_id.entries };
}

impl Questions {
    /// None. Takes no memory.
    pub(crate) fn new(alloc: Global) -> Questions
        ensures { result ≡ map.empty }
    {
        Questions {
            by_id: BTreeMap::new(alloc),
        }
    }

    /// The question of that id.
    pub(crate) fn get(&self, id: QuestionId) -> Option<Awaited>
        ensures { result ≡ map.get self.now id.0 }
    {
        self.by_id.get(&id.0).copied()
    }

    /// Puts one under its id. `Memory` leaves all as it was.
    pub(crate) fn put(&mut self, id: QuestionId, question: Awaited) -> Result<(), Memory>
        ensures ok { OnOk result (self.new ≡ map.insert self.old id.0 question) }
        ensures err { OnErr result (self.new ≡ self.old) }
    {
        self.by_id.insert(id.0, question)?;
        Ok(())
    }

    /// Puts one in place of that which is there. Takes no memory.
    pub(crate) fn set(&mut self, id: QuestionId, question: Awaited)
        requires { IsSome (map.get self.old id.0) }
        ensures { self.new ≡ map.insert self.old id.0 question }
    {
        let Ok(_) = self.by_id.insert(id.0, question) else {
            unreachable!()
        };
    }

    /// Takes the question of that id out. Takes no memory.
    pub(crate) fn take(&mut self, id: QuestionId) -> Option<Awaited>
        ensures was { result ≡ map.get self.old id.0 }
        ensures gone { self.new ≡ map.remove self.old id.0 }
    {
        self.by_id.remove(&id.0)
    }
}
