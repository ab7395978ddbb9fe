ghost use Rattle.std.specs.Prelude.{◌≡◌, ◌&&◌, [], Some, not, is_some};
ghost use Rattle.std.specs.FinMap as map;
ghost use Rattle.rpc_uses.specs.Results.{answer_is_over, caller_is_over, cancelled, is_unwanted};
ghost use Rattle.core_store.specs.Holding.{state_of, IsSound};
ghost use Rattle.core_queries.specs.Tasks.{task_caller};

use core_store::Store;
use rpc_machine::{AnswerEntry, Caller};
use rpc_msg::TaskId;

/// Whether the task is not answered yet and somebody has use for its results: who made the call, a call that waits for them,
/// or a place that names a field of them. Constant work. No call may be taken out to be routed.
pub fn wants_results(store: &Store, task: TaskId) -> bool
    requires sound { IsSound store.now }
    requires none_taken { store.now.waits.taken ≡ [] }
    ensures { result ≡ (is_some (map.get (state_of store.now).tasks task.0) && not (cancelled (state_of store.now) task)) }
{
    let Some(outcome) = store.tasks.get(task.0) else {
        return false;
    };
    !is_unwanted(store, *outcome)
}

/// Whether the task is not answered yet and nobody has use for its results. Constant work. No call may be taken out to be routed.
pub fn is_cancelled(store: &Store, task: TaskId) -> bool
    requires sound { IsSound store.now }
    requires none_taken { store.now.waits.taken ≡ [] }
    ensures { result ≡ cancelled (state_of store.now) task }
{
    let Some(outcome) = store.tasks.get(task.0) else {
        return false;
    };
    is_unwanted(store, *outcome)
}

/// Who made the call that the task is, if the task is not answered yet. Constant work.
pub fn task_caller(store: &Store, task: TaskId) -> Option<Caller>
    ensures { result ≡ task_caller (state_of store.now) task }
{
    let outcome = store.tasks.get(task.0)?;
    store.waits.caller(*outcome)
}

// Whether nobody has use for the outcome.
fn is_unwanted(store: &Store, outcome: u64) -> bool
    requires sound { IsSound store.now }
    requires none_taken { store.now.waits.taken ≡ [] }
    ensures { result ≡ is_unwanted (state_of store.now) outcome (map.get (state_of store.now).outcomes outcome) }
{
    let Some(caller) = store.waits.caller(outcome) else {
        return false;
    };
    caller_is_over(store, outcome, caller)
        && !store.waits.is_awaited(outcome)
        && store.names.of_outcome(outcome) == 0
}

// Whether who made the call has no more use for its outcome.
fn caller_is_over(store: &Store, outcome: u64, caller: Caller) -> bool
    ensures { result ≡ caller_is_over (state_of store.now) outcome caller }
{
    match caller {
        Caller::Application(call) => store.calls.get(call.0).is_none(),
        Caller::Peer(question) => match store.answers.get(question.0) {
            None => true,
            Some(answer) => answer_is_over(outcome, answer),
        },
    }
}

// Whether the answer's Finish came, or it is of another outcome.
fn answer_is_over(outcome: u64, answer: &AnswerEntry) -> bool
    ensures { result ≡ answer_is_over outcome (Some answer.now) }
{
    answer.finished || answer.outcome != outcome
}
