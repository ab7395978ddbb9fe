ghost use Rattle.std.specs.Prelude.{◌≡◌, ◌∷◌, [], IsOk, IsTrue, IfSome, OnOk};
ghost use Rattle.std.specs.FinMap as map;
ghost use Rattle.rpc_machine.specs.Sweeping.{IsToFinish};
ghost use Rattle.core_refcounts.specs.Names.{Counts};
ghost use Rattle.core_store.specs.Holding.{state_of, all_named, IsSound};
ghost use Rattle.core_store.specs.Noted.{noted_of, nothing_noted};
ghost use Rattle.core_step_sweeps.specs.Over.{AreOver, IsOnlyOver};
ghost use Rattle.core_step_sweeps.specs.Thinking.{GoesAlone, named_by_thing, field_node, pipe_node};

use crate::notes::is_to_be_finished;
use core_store::Store;
use rpc_machine::{Returned, Value};
use rpc_msg::{Memory, QuestionId};

// Whether one outcome alone is noted and names nothing, so that no question is over, whether it goes or not.
pub(crate) fn leaves_none_over(store: &Store) -> bool
    requires sound { IsSound store.now }
    requires none_taken { store.now.waits.taken ≡ [] }
    ensures { IsTrue result → AreOver (state_of store.now) [] }
{
    let Some(key) = noted_outcome(store) else {
        return false;
    };
    says_nothing(store, key)
}

// The question that is noted, if nothing else is and its Return named nothing.
pub(crate) fn question_alone(store: &Store) -> Option<QuestionId>
    requires sound { IsSound store.now }
    requires none_taken { store.now.waits.taken ≡ [] }
    ensures { IfSome result (λ q. GoesAlone (state_of store.now) (pipe_node q.0)) }
{
    let Some(id) = noted_question(store) else {
        return None;
    };
    if !gave_nothing(store, id) {
        return None;
    }
    Some(id)
}

// Finds whether the question is over, if no other can be.
#[inline(never)]
pub(crate) fn find_over_alone(
    store: &Store,
    over: &mut Vec<QuestionId>,
    id: QuestionId,
) -> Result<(), Memory>
    requires counted { Counts store.now.names (all_named store.now) }
    requires none_taken { store.now.waits.taken ≡ [] }
    requires only { IsOnlyOver (state_of store.now) id }
    requires none_yet { over.old.items ≡ [] }
    ensures over { OnOk result (AreOver (state_of store.now) over.new.items) }
    ensures never { ¬ (IsToFinish (state_of store.now) id.0 (map.get (state_of store.now).questions id.0)) → IsOk result }
{
    if !is_to_be_finished(store, id) {
        return Ok(());
    }
    over.push(id)?;
    Ok(())
}

// The outcome that is noted, if nothing else is.
fn noted_outcome(store: &Store) -> Option<u64>
    ensures { IfSome result (λ key. noted_of store.now.names ≡ record nothing_noted { outcomes = key ∷ [] }) }
{
    let names = &store.names;
    if !names.noted_promises().is_empty()
        || !names.noted_imports().is_empty()
        || !names.noted_questions().is_empty()
    {
        return None;
    }
    only(names.noted_outcomes())
}

// The question that is noted, if nothing else is.
fn noted_question(store: &Store) -> Option<QuestionId>
    ensures { IfSome result (λ q. noted_of store.now.names ≡ record nothing_noted { questions = q.0 ∷ [] }) }
{
    let names = &store.names;
    if !names.noted_promises().is_empty()
        || !names.noted_outcomes().is_empty()
        || !names.noted_imports().is_empty()
    {
        return None;
    }
    let Some(key) = only(names.noted_questions()) else {
        return None;
    };
    Some(QuestionId(key as u32))
}

// The key, if it is one alone.
fn only(keys: &[u64]) -> Option<u64>
    ensures { IfSome result (λ key. keys.now ≡ key ∷ []) }
{
    if keys.len() != 1 {
        return None;
    }
    Some(keys[0])
}

// Whether the outcome names nothing, if it is known.
fn says_nothing(store: &Store, key: u64) -> bool
    ensures { IsTrue result → named_by_thing (state_of store.now) (field_node key) ≡ [] }
{
    match store.waits.value(key) {
        Some(Value::Results(_, caps)) => caps.is_empty(),
        Some(Value::Exception(_)) => true,
        None => true,
    }
}

// Whether the Return of the question names nothing, if it came.
fn gave_nothing(store: &Store, id: QuestionId) -> bool
    ensures { IsTrue result → named_by_thing (state_of store.now) (pipe_node id.0) ≡ [] }
{
    let Some(question) = store.questions.get(id) else {
        return true;
    };
    match &question.returned {
        Some(Returned::Results(_, caps)) => caps.is_empty(),
        Some(Returned::Exception(_)) => true,
        None => true,
    }
}
