//! The peer's tail calls that are open.
ghost use Rattle.std.specs.Prelude.{◌≡◌, OnOk, OnErr, IsSome, option_copied};
ghost use Rattle.std.specs.FinMap as map;

use rpc_msg::{Memory, QuestionId, ReturnBody};
use std::alloc::Global;
use std::collections::BTreeMap;
use std::marker::Model;

/// The Return that takes the results of a tail call, without them.
#[derive(Clone, Copy, Debug, PartialEq, Eq, Drop)]
pub(crate) struct Taker {
    /// The question that it answers.
    pub(crate) question: QuestionId,
    pub(crate) release_param_caps: bool,
}

/// A tail call of the peer: what of its outcome, of the Return that takes it and of its Finish is there.
#[derive(Drop)]
pub(crate) enum Tail {
    /// None of them.
    Asked,
    /// The Return that takes it.
    Taken(Taker),
    /// That Return, and the Finish, which is held.
    Finishing(Taker),
    /// The Finish, which the vat has heard.
    Finished,
    /// The outcome.
    Kept(ReturnBody),
    /// The outcome, which the vat has heard in the Return that takes it.
    Told,
}

/// Tail calls by their questions: seen by contracts as a finite map.
#[derive(Drop)]
pub(crate) struct Tails {
    by_id: BTreeMap<u32, Tail>,
}

impl Model for Tails {
    ghost use Rattle.std.specs.Ordering.{nat_cmp};
    ghost use Rattle.std.specs.Coded.{coded_ℕ};
    ghost use Rattle.std.specs.FinMap as map;
    ghost use Rattle.peer_tail_calls.specs.declared.tails.Tail.{Tail};
    ghost use Rattle.peer_tail_calls.specs.contracts.tails.Tail as tail;

    ghost Value = { map.FinMap nat_cmp Tail };

    ghost coded = { map.code coded_ℕ tail.the_row.coded };

    ghost view = { λ a. map.from_entries a.by_id.entries };
}

impl Tails {
    /// No tail calls. Takes no memory.
    pub(crate) fn new(alloc: Global) -> Tails
        ensures { result ≡ map.empty }
    {
        Tails {
            by_id: BTreeMap::new(alloc),
        }
    }

    /// The tail call of that question.
    pub(crate) fn get(&self, id: QuestionId) -> Option<&Tail>
        ensures { option_copied result ≡ map.get self.now id.0 }
    {
        self.by_id.get(&id.0)
    }

    /// Puts a tail call under its question, in place of what was there. `Memory` leaves all as it was.
    pub(crate) fn put(&mut self, id: QuestionId, tail: Tail) -> Result<(), Memory>
        ensures ok { OnOk result (self.new ≡ map.insert self.old id.0 tail) }
        ensures err { OnErr result (self.new ≡ self.old) }
    {
        match self.by_id.insert(id.0, tail) {
            Ok(_) => Ok(()),
            Err(_) => Err(Memory),
        }
    }

    /// Puts a tail call in place of that which is there. Takes no memory.
    pub(crate) fn set(&mut self, id: QuestionId, tail: Tail)
        requires { IsSome (map.get self.old id.0) }
        ensures { self.new ≡ map.insert self.old id.0 tail }
    {
        let Ok(_) = self.by_id.insert(id.0, tail) else {
            unreachable!()
        };
    }

    /// Takes the tail call of that question out. Takes no memory.
    pub(crate) fn remove(&mut self, id: QuestionId)
        ensures { self.new ≡ map.remove self.old id.0 }
    {
        self.by_id.remove(&id.0);
    }
}
