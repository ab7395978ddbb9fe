ghost use Rattle.std.specs.Prelude.{◌≡◌, ◌≤◌, ℕ, [], length, IsOk, IsTrue, OnOk};
ghost use Rattle.std.specs.FinMap as map;
ghost use Rattle.rpc_machine.specs.Sweeping.{IsToFinish};
ghost use Rattle.core_store.specs.Holding.{state_of, IsSound};
ghost use Rattle.core_step_sweeps.specs.Over.{AreOver};

use crate::alone::find_over_alone;
use core_store::Store;
use rpc_msg::{Memory, QuestionId};

// Whether no place names a Pipe of any question, and no more than one question is noted. What goes then leaves no other
// question over.
pub(crate) fn no_pipe_holds(store: &Store) -> bool
    ensures unnamed { IsTrue result → map.len store.now.names.questions.counts ≡ 0 }
    ensures few { IsTrue result → length store.now.names.questions.noted ≤ 1 }
{
    store.names.names_no_question() && store.names.noted_questions().len() <= 1
}

// Finds whether the question that is noted is over, if one is, if no place names a Pipe of any.
pub(crate) fn find_over_unnamed(store: &Store, over: &mut Vec<QuestionId>) -> Result<(), Memory>
    requires sound { IsSound store.now }
    requires none_taken { store.now.waits.taken ≡ [] }
    requires unnamed { map.len store.now.names.questions.counts ≡ 0 }
    requires few { length store.now.names.questions.noted ≤ 1 }
    requires none_yet { over.old.items ≡ [] }
    ensures over { OnOk result (AreOver (state_of store.now) over.new.items) }
    ensures never { ((q : ℕ) → ¬ (IsToFinish (state_of store.now) q (map.get (state_of store.now).questions q))) → IsOk result }
{
    let keys = store.names.noted_questions();
    if keys.is_empty() {
        return Ok(());
    }
    find_over_alone(store, over, QuestionId(keys[0] as u32))
}
