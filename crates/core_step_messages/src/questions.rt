ghost use Rattle.std.specs.Prelude.{◌≡◌, ◌<◌, Some, length, IsSome, IfOk, IfErr, OnOk};
ghost use Rattle.std.specs.FinMap as map;
ghost use Rattle.rpc_machine.specs.declared.fault.Fault.TheVariants as fault;
ghost use Rattle.rpc_machine.specs.Messages.{ComesFor, value_of_results};
ghost use Rattle.rpc_machine.specs.Places.{nodes};
ghost use Rattle.rpc_machine.specs.Progress.{caps_of};
ghost use Rattle.rpc_machine.specs.declared.entries.Question.{Question};
ghost use Rattle.core_store.specs.Holding.{state_of};
ghost use Rattle.core_step.specs.InProgress.{progress_of, IsReady};
ghost use Rattle.core_step_messages.specs.Parts.{ComesBackFor, KeepsFor};

use core_step::{Step, arises, reserve};
use core_step_settles::tell_call;
use core_store_tables::{forget_question, set_returned};
use rpc_machine::{Fault, Finishing, Node, Returned, Role, Value};
use rpc_msg::{Descriptor, Items, Memory, QuestionId};
use std::alloc::Global;

fn nodes_of(alloc: Global, caps: &[(Descriptor, Node)]) -> Result<Items<Node>, Memory>
    ensures { IfOk result (λ found. found ≡ nodes caps.now) }
{
    let mut found = Items::from_vec(Vec::with_capacity(alloc, caps.len())?);
    for cap in caps {
        let Ok(()) = found.push(cap.1) else {
            return Err(Memory);
        };
    }
    Ok(found)
}

// What was said, as a call's outcome, in memory of its own.
fn value_of(alloc: Global, said: &Returned) -> Result<Value, Memory>
    ensures { IfOk result (λ value. value ≡ value_of_results said.now) }
{
    match said {
        Returned::Results(payload, caps) => {
            let payload = payload.copy(alloc)?;
            let caps = nodes_of(alloc, caps)?;
            Ok(Value::Results(payload, caps))
        }
        Returned::Exception(exception) => {
            let exception = exception.copy(alloc)?;
            Ok(Value::Exception(exception))
        }
    }
}

fn count_of(value: &Value) -> usize
    ensures { result ≡ length (caps_of value.now) }
{
    match value {
        Value::Results(_, caps) => caps.len(),
        Value::Exception(_) => 0,
    }
}

// Who asked is told: a relay's outcome arises, and the application is told of its call.
fn come_for(step: &mut Step, alloc: Global, role: Role, value: Value) -> Result<(), Memory>
    requires ready { IsReady step.old }
    requires slack { 0 < step.old.store.slack }
    ensures comes { OnOk result (ComesFor (progress_of step.old) role value (progress_of step.new)) }
    ensures taken { OnOk result (step.new.store.waits.taken ≡ step.old.store.waits.taken) }
    ensures ready { OnOk result (IsReady step.new) }
{
    match role {
        Role::Relay(outcome) => {
            arises(step, outcome, value);
            Ok(())
        }
        Role::Direct(call) => tell_call(step, alloc, call, value),
    }
}

// The question keeps what was said, and who asked is told.
fn keep_for(
    step: &mut Step,
    alloc: Global,
    id: QuestionId,
    role: Role,
    said: Returned,
) -> Result<(), Memory>
    requires ready { IsReady step.old }
    requires there { IsSome (map.get (state_of step.old.store).questions id.0) }
    requires role { (x : Question) → map.get (state_of step.old.store).questions id.0 ≡ Some x → x.role ≡ role }
    ensures keeps { OnOk result (KeepsFor (progress_of step.old) id.0 said (map.get (state_of step.old.store).questions id.0) (progress_of step.new)) }
    ensures taken { OnOk result (step.new.store.waits.taken ≡ step.old.store.waits.taken) }
    ensures ready { OnOk result (IsReady step.new) }
{
    let value = value_of(alloc, &said)?;
    let Some(more) = count_of(&value).checked_add(2) else {
        return Err(Memory);
    };
    reserve(step, more)?;
    set_returned(&mut step.store, id, said);
    come_for(step, alloc, role, value)
}

// If its Finish was sent, the question goes, and nothing more comes of it.
fn come_to(step: &mut Step, alloc: Global, id: QuestionId, said: Returned) -> Result<(), Memory>
    requires ready { IsReady step.old }
    ensures comes { OnOk result (ComesBackFor (progress_of step.old) id.0 said (map.get (state_of step.old.store).questions id.0) (progress_of step.new)) }
    ensures taken { OnOk result (step.new.store.waits.taken ≡ step.old.store.waits.taken) }
    ensures ready { OnOk result (IsReady step.new) }
{
    // The check found it.
    let Some(question) = step.store.questions.get(id) else {
        return Err(Memory);
    };
    let role = question.role;
    if let Finishing::Sent = question.finish {
        forget_question(&mut step.store, id);
        return Ok(());
    }
    keep_for(step, alloc, id, role, said)
}

/// What was said comes back for a question. If its Finish was sent, the question goes, and nothing more comes of it; else
/// the question keeps it, and who asked is told. Makes the room for it. `Err` for lack of memory, or if there is no such
/// question; the step is only to be dropped then.
#[inline(always)]
pub(crate) fn come_back(
    step: &mut Step,
    alloc: Global,
    id: QuestionId,
    said: Returned,
) -> Result<(), Fault>
    requires ready { IsReady step.old }
    ensures comes { OnOk result (ComesBackFor (progress_of step.old) id.0 said (map.get (state_of step.old.store).questions id.0) (progress_of step.new)) }
    ensures fault { IfErr result (λ f. f ≡ fault.WantOfRoom) }
    ensures taken { OnOk result (step.new.store.waits.taken ≡ step.old.store.waits.taken) }
    ensures ready { OnOk result (IsReady step.new) }
{
    match come_to(step, alloc, id, said) {
        Ok(()) => Ok(()),
        Err(_) => Err(Fault::WantOfRoom),
    }
}
