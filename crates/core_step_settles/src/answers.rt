ghost use Rattle.std.specs.Prelude.{◌≡◌, ◌-◌, ◌<◌, [], false, IfOk, OnOk};
ghost use Rattle.std.specs.FinMap as map;
ghost use Rattle.rpc_machine.specs.Flags.{flag_for, give_back};
ghost use Rattle.rpc_machine.specs.Progress.{with_state, numbers};
ghost use Rattle.rpc_machine.specs.Settling.{TellsPeer};
ghost use Rattle.rpc_machine.specs.declared.calls.Value.TheVariants as value;
ghost use Rattle.core_store.specs.Holding.{state_of};
ghost use Rattle.core_store_tables.specs.Peer.{return_answer};
ghost use Rattle.core_step.specs.InProgress.{progress_of, IsReady};
ghost use Rattle.core_step_settles.specs.Returning.{Says, returned_with};

use core_step::Step;
use core_step_collects::collect;
use core_step_routes::describe_all_kept;
use core_store_tables::set_answer_returned;
use rpc_machine::{Node, Value};
use rpc_msg::{ExportId, Items, Memory, Payload, PlainMessage, QuestionId, Return, ReturnBody};
use std::alloc::Global;

// What a Return says, and the ids of the exports to which its descriptors add one.
#[derive(Drop)]
struct Saying {
    body: ReturnBody,
    ids: Items<ExportId>,
}

/// The Return of an answer is sent: what the call came to, or that it was canceled, if its Finish came first. What no
/// place names is gone before its flag is made. `Err` for lack of memory, if a limit of the exports is passed, or there
/// is no such answer, which does not come for one whose outcome is kept; the step is only to be dropped then.
pub fn returns(step: &mut Step, alloc: Global, q: QuestionId, value: Value) -> Result<(), Memory>
    requires ready { IsReady step.old }
    requires none_taken { step.old.store.waits.taken ≡ [] }
    ensures told { OnOk result (TellsPeer (progress_of step.old) q value (map.get (state_of step.old.store).answers q.0) (progress_of step.new)) }
    ensures taken { OnOk result (step.new.store.waits.taken ≡ []) }
    ensures ready { OnOk result (IsReady step.new) }
{
    let Some(answer) = step.store.answers.get(q.0) else {
        return Err(Memory);
    };
    let finished = answer.finished;
    let taken = copy_ids(alloc, &answer.taken)?;
    let said = say_back(step, alloc, finished, value)?;
    collect(step);
    send_return(step, q, &taken, said)?;
    Ok(())
}

// The same ids, in memory of their own; none take none.
fn copy_ids(alloc: Global, ids: &Items<ExportId>) -> Result<Items<ExportId>, Memory>
    ensures { IfOk result (λ copy. copy ≡ ids.now) }
{
    if ids.is_empty() {
        return Ok(Items::new(alloc));
    }
    ids.copy(alloc)
}

// What the Return of a value says.
fn say_back(step: &mut Step, alloc: Global, finished: bool, value: Value) -> Result<Saying, Memory>
    requires ready { IsReady step.old }
    ensures says { IfOk result (λ said. Says (state_of step.old.store) finished value said.body said.ids (state_of step.new.store)) }
    ensures same { OnOk result (progress_of step.new ≡ with_state (progress_of step.old) (state_of step.new.store)) }
    ensures taken { OnOk result (step.new.store.waits.taken ≡ step.old.store.waits.taken) }
    ensures ready { OnOk result (IsReady step.new) }
{
    if finished {
        return Ok(Saying {
            body: ReturnBody::Canceled,
            ids: Items::new(alloc),
        });
    }
    match value {
        Value::Exception(exception) => {
            Ok(Saying {
                body: ReturnBody::Exception(exception),
                ids: Items::new(alloc),
            })
        }
        Value::Results(payload, caps) => {
            let said = say_results(step, alloc, payload, caps)?;
            Ok(said)
        }
    }
}

// What the Return of results says: each capability has its descriptor.
fn say_results(
    step: &mut Step,
    alloc: Global,
    payload: Payload,
    caps: Items<Node>,
) -> Result<Saying, Memory>
    requires ready { IsReady step.old }
    ensures says { IfOk result (λ said. Says (state_of step.old.store) false (value.Results payload caps) said.body said.ids (state_of step.new.store)) }
    ensures same { OnOk result (progress_of step.new ≡ with_state (progress_of step.old) (state_of step.new.store)) }
    ensures taken { OnOk result (step.new.store.waits.taken ≡ step.old.store.waits.taken) }
    ensures ready { OnOk result (IsReady step.new) }
{
    let count = caps.len();
    let mut said = Vec::with_capacity(alloc, count)?;
    let mut ids = Vec::with_capacity(alloc, count)?;
    core_step::reserve(step, count)?;
    let Ok(()) = describe_all_kept(&mut step.store, &caps, &mut said, &mut ids) else {
        return Err(Memory);
    };
    Ok(Saying {
        body: ReturnBody::Results(payload, Items::from_vec(said)),
        ids: Items::from_vec(ids),
    })
}

// The flag is made, and the Return is sent.
fn send_return(
    step: &mut Step,
    q: QuestionId,
    taken: &[ExportId],
    said: Saying,
) -> Result<(), Memory>
    requires ready { IsReady step.old }
    requires none_taken { step.old.store.waits.taken ≡ [] }
    ensures sent { OnOk result (progress_of step.new ≡ returned_with (progress_of step.old) q (numbers taken.now) said.body said.ids) }
    ensures taken { OnOk result (step.new.store.waits.taken ≡ []) }
    ensures ready { OnOk result (IsReady step.new) }
{
    core_step::reserve(step, 2)?;
    let Saying { body, ids } = said;
    let flag = give_taken(step, taken);
    close_answer(step, q, ids);
    let message = Return {
        answer: q,
        release_param_caps: flag,
        body,
    };
    core_step::send(step, PlainMessage::Return(message));
    Ok(())
}

// Gives back what the flag lets go, and says the flag.
fn give_taken(step: &mut Step, ids: &[ExportId]) -> bool
    requires ready { IsReady step.old }
    requires none_taken { step.old.store.waits.taken ≡ [] }
    ensures flag { result ≡ flag_for (state_of step.old.store) (numbers ids.now) }
    ensures given { progress_of step.new ≡ with_state (progress_of step.old) (give_back (state_of step.old.store) (numbers ids.now)) }
    ensures left { step.new.store.slack ≡ step.old.store.slack }
    ensures waits { step.new.store.waits ≡ step.old.store.waits }
    ensures ready { IsReady step.new }
{
    core_step_collects::give_back(&mut step.store, ids)
}

// The answer's Return is sent, with these exports.
fn close_answer(step: &mut Step, q: QuestionId, ids: Items<ExportId>)
    requires ready { IsReady step.old }
    requires slack { 0 < step.old.store.slack }
    ensures closed { progress_of step.new ≡ with_state (progress_of step.old) (return_answer (state_of step.old.store) q.0 (numbers ids) (map.get (state_of step.old.store).answers q.0)) }
    ensures left { step.new.store.slack ≡ step.old.store.slack - 1 }
    ensures waits { step.new.store.waits ≡ step.old.store.waits }
    ensures ready { IsReady step.new }
{
    set_answer_returned(&mut step.store, q, ids);
}
