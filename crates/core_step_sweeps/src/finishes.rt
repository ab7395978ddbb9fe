ghost use Rattle.std.specs.Prelude.{◌≡◌, ◌≢◌, ◌<◌, ◌≤◌, ◌+◌, ℕ, []};
ghost use Rattle.std.specs.FinMap as map;
ghost use Rattle.rpc_machine.specs.declared.entries.Finishing.TheVariants as finishing;
ghost use Rattle.core_outbox.specs.Rising.{AllBelow};
ghost use Rattle.core_store.specs.Holding.{state_of, IsSound, IsThere};
ghost use Rattle.core_step.specs.InProgress.{IsEnding};
ghost use Rattle.core_step_sweeps.specs.Ending.{finishing_of, flag_of, close_giving, finished_as, finished_if, OnlyFinishes, FinishesOne};

use core_step::Step;
use core_step_collects::{collect_ending, flag_for_returned, give_if_returned};
use core_store::Store;
use core_store_tables::{close, forget_question};
use rpc_machine::Finishing;
use rpc_msg::QuestionId;

/// What no place names goes, and then the question is finished, if it is there: with a Finish, if that is owed. Takes no
/// memory. No call may be taken out to be routed.
pub(crate) fn finish_next(step: &mut Step, q: QuestionId)
    requires ending { IsEnding step.old }
    requires none_taken { step.old.store.waits.taken ≡ [] }
    requires room { IsThere (map.get (state_of step.old.store).questions q.0) → 0 < step.old.outbox.finish_room }
    requires last { AllBelow q.0 (map.entries step.old.outbox.finishes) }
    ensures one { FinishesOne step.old step.new q.0 (map.get (state_of step.old.store).questions q.0) }
    ensures others { (k : ℕ) → k ≢ q.0 → map.get (state_of step.new.store).questions k ≡ map.get (state_of step.old.store).questions k }
    ensures below { (k : ℕ) → q.0 < k → AllBelow k (map.entries step.new.outbox.finishes) }
    ensures room { step.old.outbox.finish_room ≤ step.new.outbox.finish_room + 1 }
    ensures arisen { step.new.arisen ≡ step.old.arisen }
    ensures taken { step.new.store.waits.taken ≡ [] }
    ensures ending { IsEnding step.new }
{
    let Some(_) = step.store.questions.get(q) else {
        return;
    };
    collect_ending(step);
    finish_one(step, q);
}

// The question is finished, if it is there, behind those of smaller ids.
fn finish_one(step: &mut Step, q: QuestionId)
    requires ending { IsEnding step.old }
    requires none_taken { step.old.store.waits.taken ≡ [] }
    requires room { 0 < step.old.outbox.finish_room }
    requires last { AllBelow q.0 (map.entries step.old.outbox.finishes) }
    ensures said { finishing_of step.new ≡ finished_if (finishing_of step.old) q.0 (map.get (state_of step.old.store).questions q.0) }
    ensures only { OnlyFinishes q.0 step.old step.new }
    ensures taken { step.new.store.waits.taken ≡ [] }
    ensures ending { IsEnding step.new }
{
    let Some(question) = step.store.questions.get(q) else {
        return;
    };
    match question.finish {
        Finishing::Owed => finish_owed(step, q),
        Finishing::Sent => {}
        Finishing::Waived => close(&mut step.store, q),
    }
}

// A Finish is sent for the question, with the flag of what its Return gave.
fn finish_owed(step: &mut Step, q: QuestionId)
    requires ending { IsEnding step.old }
    requires none_taken { step.old.store.waits.taken ≡ [] }
    requires room { 0 < step.old.outbox.finish_room }
    requires last { AllBelow q.0 (map.entries step.old.outbox.finishes) }
    ensures said { finishing_of step.new ≡ finished_as (finishing_of step.old) q.0 finishing.Owed (map.get (state_of step.old.store).questions q.0) }
    ensures only { OnlyFinishes q.0 step.old step.new }
    ensures taken { step.new.store.waits.taken ≡ [] }
    ensures ending { IsEnding step.new }
{
    if step.store.questions.get(q).is_none() {
        return;
    }
    let flag = flag_of(&step.store, q);
    close_giving(&mut step.store, q, flag);
    let Ok(()) = step.outbox.finish(q, flag) else {
        unreachable!()
    };
}

// The flag of a Finish for the question, while its Return stands.
fn flag_of(store: &Store, q: QuestionId) -> bool
    requires sound { IsSound store.now }
    requires none_taken { store.now.waits.taken ≡ [] }
    ensures { result ≡ flag_of (state_of store.now) (map.get (state_of store.now).questions q.0) }
{
    let Some(question) = store.questions.get(q) else {
        return false;
    };
    flag_for_returned(store, &question.returned)
}

// The question closes, and what the flag lets go of its Return is given back. The order is free: questions and imports
// are changed apart.
fn close_giving(store: &mut Store, q: QuestionId, flag: bool)
    requires { IsSound store.old }
    ensures state { state_of store.new ≡ close_giving (state_of store.old) q.0 flag (map.get (state_of store.old).questions q.0) }
    ensures left { store.new.slack ≡ store.old.slack }
    ensures waits { store.new.waits ≡ store.old.waits }
    ensures sound { IsSound store.new }
{
    let Some(question) = store.questions.get(q) else {
        return;
    };
    if !flag || question.returned.is_none() {
        close(store, q);
        return;
    }
    let Some(question) = forget_question(store, q) else {
        unreachable!()
    };
    give_if_returned(store, flag, &question.returned);
}
