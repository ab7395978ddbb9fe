ghost use Rattle.std.specs.Prelude.{◌≡◌, ℕ, [], IsOk, OnOk, MatchBool};
ghost use Rattle.std.specs.FinMap as map;
ghost use Rattle.rpc_machine.specs.Sweeping.{IsToFinish};
ghost use Rattle.core_refcounts.specs.Names.{Counts};
ghost use Rattle.core_store.specs.Holding.{state_of, all_named, IsSound};
ghost use Rattle.core_store.specs.Noted.{noted_of, nothing_noted};
ghost use Rattle.core_step_sweeps.specs.Thinking.{IsQuiet};

use core_step_collects::{next_loose_import, next_loose_outcome, next_loose_promise};
use core_store::Store;
use rpc_machine::{Finishing, Role};
use rpc_msg::{Memory, QuestionId};

/// Takes all notes away, if none is of anything that may go. `Err` if something is loose or a question is to be
/// finished, which does not come between two steps; some notes may be gone then, none of what is loose. Then and else all
/// but notes stays. Takes no memory. No call may be taken out to be routed.
pub fn rest(store: &mut Store) -> Result<(), Memory>
    requires sound { IsSound store.old }
    requires none_taken { store.old.waits.taken ≡ [] }
    ensures same { store.new ≡ record store.old { names = store.new.names } }
    ensures rested { OnOk result (noted_of store.new.names ≡ nothing_noted) }
    ensures quiet { OnOk result (IsQuiet (state_of store.old)) }
    ensures never { IsQuiet (state_of store.old) → IsOk result }
    ensures sound { IsSound store.new }
{
    let None = next_loose_promise(store) else {
        return Err(Memory);
    };
    let None = next_loose_outcome(store) else {
        return Err(Memory);
    };
    let None = next_loose_import(store) else {
        return Err(Memory);
    };
    rest_questions(store)?;
    Ok(())
}

// Takes the notes of questions away at the end of a step, if there are more than one: else they would gather where the
// application makes no calls. One that is to be finished, which does not come there, keeps its note.
pub(crate) fn forget_questions(store: &mut Store)
    requires sound { IsSound store.old }
    requires none_taken { store.old.waits.taken ≡ [] }
    ensures same { store.new ≡ record store.old { names = store.new.names } }
    ensures sound { IsSound store.new }
{
    if store.names.noted_questions().len() < 2 {
        return;
    }
    let _ = rest_questions(store);
}

// Takes the notes of questions away, if none is to be finished.
fn rest_questions(store: &mut Store) -> Result<(), Memory>
    requires sound { IsSound store.old }
    requires none_taken { store.old.waits.taken ≡ [] }
    ensures same { store.new ≡ record store.old { names = store.new.names } }
    ensures rested { OnOk result (noted_of store.new.names ≡ record (noted_of store.old.names) { questions = [] }) }
    ensures never { ((q : ℕ) → ¬ (IsToFinish (state_of store.old) q (map.get (state_of store.old).questions q))) → IsOk result }
    ensures sound { IsSound store.new }
{
    while let Some(id) = store.names.take_question() {
        if is_to_be_finished(store, id) {
            let Ok(()) = store.names.note_question(id) else {
                unreachable!()
            };
            return Err(Memory);
        }
    }
    Ok(())
}

// Whether the question is over, and its Finish was not sent.
pub(crate) fn is_to_be_finished(store: &Store, id: QuestionId) -> bool
    requires counted { Counts store.now.names (all_named store.now) }
    requires none_taken { store.now.waits.taken ≡ [] }
    ensures { MatchBool result (IsToFinish (state_of store.now) id.0 (map.get (state_of store.now).questions id.0)) (¬ (IsToFinish (state_of store.now) id.0 (map.get (state_of store.now).questions id.0))) }
{
    let Some(question) = store.questions.get(id) else {
        return false;
    };
    if question.finish == Finishing::Sent {
        return false;
    }
    match question.role {
        Role::Relay(_) => question.returned.is_some(),
        Role::Direct(call) => {
            store.calls.get(call.0).is_none() && store.names.of_question(id) == 0
        }
    }
}
