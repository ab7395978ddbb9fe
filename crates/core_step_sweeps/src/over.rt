ghost use Rattle.std.specs.Prelude.{◌≡◌, ◌≤◌, ◌∷◌, ◌++◌, ℕ, [], None, Some, IsTrue, IsOk, OnOk};
ghost use Rattle.std.specs.FinMap as map;
ghost use Rattle.rpc_machine.specs.Collecting.{IsTight};
ghost use Rattle.rpc_machine.specs.Sweeping.{IsToFinish};
ghost use Rattle.core_refcounts.specs.Names.{named_all, Counts};
ghost use Rattle.core_store.specs.Holding.{state_of, all_named, IsSound};
ghost use Rattle.core_store.specs.Noted.{noted_of, nothing_noted};
ghost use Rattle.core_step_sweeps.specs.Over.{AreOver};
ghost use Rattle.core_step_sweeps.specs.Thinking.{IsThought, IsQuiet, work, asked_by, named_by_thing};

use crate::alone::{find_over_alone, leaves_none_over, question_alone};
use crate::candidates::consider;
use crate::search::{consider_imports, consider_outcomes, consider_promises, consider_questions};
use crate::thought::Thought;
use crate::unnamed::{find_over_unnamed, no_pipe_holds};
use core_store::Store;
use rpc_msg::Memory;

/// Finds the questions that are finished in a step from here on: those that are over while what no place names, and what
/// they themselves name, goes one after the other. Nothing is changed but the memory of the thought, which grows with what
/// goes. `Err` if a growth was refused, which does not come if nothing is noted. No call may be taken out to be
/// routed.
#[inline(never)]
pub fn find_over(store: &Store, thought: &mut Thought) -> Result<(), Memory>
    requires sound { IsSound store.now }
    requires none_taken { store.now.waits.taken ≡ [] }
    ensures over { OnOk result (AreOver (state_of store.now) thought.new.over.items) }
    ensures never { IsTight (state_of store.now) → ((q : ℕ) → ¬ (IsToFinish (state_of store.now) q (map.get (state_of store.now).questions q))) → IsOk result }
    ensures rested { noted_of store.now.names ≡ nothing_noted → IsOk result }
{
    thought.over.clear();
    if no_pipe_holds(store) {
        return find_over_unnamed(store, &mut thought.over);
    }
    find_over_named(store, thought)
}

// Finds them if places name Pipes of questions, or more than one question is noted.
#[inline(never)]
fn find_over_named(store: &Store, thought: &mut Thought) -> Result<(), Memory>
    requires sound { IsSound store.now }
    requires none_taken { store.now.waits.taken ≡ [] }
    requires none_yet { thought.old.over.items ≡ [] }
    ensures over { OnOk result (AreOver (state_of store.now) thought.new.over.items) }
    ensures never { IsTight (state_of store.now) → ((q : ℕ) → ¬ (IsToFinish (state_of store.now) q (map.get (state_of store.now).questions q))) → IsOk result }
    ensures rested { noted_of store.now.names ≡ nothing_noted → IsOk result }
{
    if nothing_is_noted(store) {
        return Ok(());
    }
    if leaves_none_over(store) {
        return Ok(());
    }
    if let Some(id) = question_alone(store) {
        return find_over_alone(store, &mut thought.over, id);
    }
    think_of_noted(store, thought)
}

// Finds the questions that are over by a thought of all that is noted.
fn think_of_noted(store: &Store, thought: &mut Thought) -> Result<(), Memory>
    requires sound { IsSound store.now }
    requires none_taken { store.now.waits.taken ≡ [] }
    ensures over { OnOk result (AreOver (state_of store.now) thought.new.over.items) }
    ensures never { IsQuiet (state_of store.now) → IsOk result }
{
    thought.clear();
    consider_promises(store, thought)?;
    consider_outcomes(store, thought)?;
    consider_imports(store, thought)?;
    consider_questions(store, thought)?;
    think(store, thought)?;
    thought.over.sort_unstable();
    Ok(())
}

// Whether nothing is noted, of any kind.
fn nothing_is_noted(store: &Store) -> bool
    ensures { IsTrue result → noted_of store.now.names ≡ nothing_noted }
{
    store.names.noted_promises().is_empty()
        && store.names.noted_outcomes().is_empty()
        && store.names.noted_imports().is_empty()
        && store.names.noted_questions().is_empty()
}

// What is loose goes in the thought, one thing after the other, until nothing is left that would.
fn think(store: &Store, thought: &mut Thought) -> Result<(), Memory>
    requires counted { Counts store.now.names (all_named store.now) }
    requires none_taken { store.now.waits.taken ≡ [] }
    requires thought { IsThought (state_of store.now) thought.old thought.old.pending.items }
    ensures thought { OnOk result (IsThought (state_of store.now) thought.new []) }
    ensures never { thought.old.pending.items ≡ [] → IsOk result }
{
    'thinking: while let Some(node) = thought.next() {
        consider(store, thought, node)?;
    }
    Ok(())
}
