ghost use Rattle.std.specs.Prelude.{◌≡◌, ◌+◌, ◌<◌, ◌≤◌, [], ◌∷◌, ◌++◌, OnOk, IsOk, IsTrue, IfSome, IfNone};

use rpc_machine::Value;
use rpc_msg::Memory;
use std::alloc::Global;
use std::collections::VecDeque;
use std::marker::Model;

/// The outcomes that arose in a step and are to be settled, each with its key, the first that arose in front: seen by
/// contracts as these, and how many more fit without memory.
#[derive(Drop)]
pub struct Arisen {
    outcomes: VecDeque<(u64, Value)>,
}

impl Model for Arisen {
    ghost use Rattle.std.specs.Prelude.{◌-◌};
    ghost use Rattle.std.specs.VecDeque.{deque_len, deque_capacity};
    ghost use Rattle.core_step.specs.Queue.{Queue};

    ghost Value = { Queue };

    ghost view = { λ a. (a.outcomes.items, deque_capacity a.outcomes - deque_len a.outcomes) };
}

impl Arisen {
    /// None. Takes no memory.
    pub fn new(alloc: Global) -> Self
        ensures { result.0 ≡ [] }
    {
        Arisen {
            outcomes: VecDeque::new(alloc),
        }
    }

    /// Whether there is room for so many more.
    pub(crate) fn has_room(&self, more: usize) -> bool
        ensures { IsTrue result → more ≤ self.now.1 }
    {
        more <= self.outcomes.capacity() - self.outcomes.len()
    }

    /// Makes room for so many more. `Err` if there was no room and the growth was refused; the outcomes stay as they
    /// are.
    pub fn reserve(&mut self, more: usize) -> Result<(), Memory>
        ensures same { self.new.0 ≡ self.old.0 }
        ensures ok { OnOk result (more ≤ self.new.1) }
        ensures room { self.old.1 ≤ self.new.1 }
        ensures had_room { more ≤ self.old.1 → IsOk result }
    {
        match self.outcomes.reserve(more) {
            Ok(()) => Ok(()),
            Err(_) => Err(Memory),
        }
    }

    /// Puts one behind the others, if there is room.
    pub(crate) fn push(&mut self, key: u64, value: Value)
        requires { 0 < self.old.1 }
        ensures outcomes { self.new.0 ≡ self.old.0 ++ (key, value) ∷ [] }
        ensures room { self.old.1 ≤ self.new.1 + 1 }
    {
        self.outcomes.push_back_reserved((key, value));
    }

    /// Takes out the one in front, if there is one.
    pub(crate) fn pop(&mut self) -> Option<(u64, Value)>
        ensures first { IfSome result (λ next. self.old.0 ≡ next ∷ self.new.0) }
        ensures none { IfNone result ((self.old.0 ≡ []) × (self.new.0 ≡ [])) }
        ensures room { self.old.1 ≤ self.new.1 }
    {
        self.outcomes.pop_front()
    }
}
