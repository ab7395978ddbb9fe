ghost use Rattle.std.specs.Prelude.{◌≡◌, length, IfOk, OnOk};
ghost use Rattle.std.specs.FinMap as map;
ghost use Rattle.rpc_machine.specs.Progress.{outcome_of, caps_of};
ghost use Rattle.rpc_machine.specs.Settling.{report, TellsCall};
ghost use Rattle.core_store.specs.Holding.{state_of};
ghost use Rattle.core_step.specs.InProgress.{progress_of, IsReady};

use core_step::Step;
use rpc_journal::{Ended, Outcome};
use rpc_machine::{Node, Value};
use rpc_msg::{CallId, Items, Memory};
use std::alloc::Global;

/// The application is told how a call of its own ended, with one new reference for each capability; of a call that it
/// finished it is told nothing. `Err` for lack of memory, or of numbers of references; the step is only to be dropped
/// then.
pub fn tell_call(step: &mut Step, alloc: Global, call: CallId, value: Value) -> Result<(), Memory>
    requires ready { IsReady step.old }
    ensures told { OnOk result (TellsCall (progress_of step.old) call.0 value (map.get (state_of step.old.store).calls call.0) (progress_of step.new)) }
    ensures taken { OnOk result (step.new.store.waits.taken ≡ step.old.store.waits.taken) }
    ensures ready { OnOk result (IsReady step.new) }
{
    let Some(_) = step.store.calls.get(call.0) else {
        return Ok(());
    };
    report(step, alloc, call, value)?;
    Ok(())
}

// The application is told, with one new reference for each capability.
fn report(step: &mut Step, alloc: Global, call: CallId, value: Value) -> Result<(), Memory>
    requires ready { IsReady step.old }
    ensures told { OnOk result (progress_of step.new ≡ report (progress_of step.old) call.0 value) }
    ensures taken { OnOk result (step.new.store.waits.taken ≡ step.old.store.waits.taken) }
    ensures ready { OnOk result (IsReady step.new) }
{
    let (outcome, caps) = split(alloc, value);
    if caps.is_empty() {
        core_step::reserve(step, 1)?;
        let refs = Items::new(alloc);
        core_step::tell_ended(
            step,
            Ended {
                call,
                outcome,
                refs,
            },
        );
        return Ok(());
    }
    report_caps(step, alloc, call, outcome, caps)
}

// The same, if there are capabilities.
#[inline(never)]
fn report_caps(
    step: &mut Step,
    alloc: Global,
    call: CallId,
    outcome: Outcome,
    caps: Items<Node>,
) -> Result<(), Memory>
    requires ready { IsReady step.old }
    ensures told { OnOk result ((v : Value) → outcome ≡ outcome_of v → caps ≡ caps_of v → progress_of step.new ≡ report (progress_of step.old) call.0 v) }
    ensures taken { OnOk result (step.new.store.waits.taken ≡ step.old.store.waits.taken) }
    ensures ready { OnOk result (IsReady step.new) }
{
    let count = caps.len();
    let Some(_) = step.store.next_ref.checked_add(count as u64) else {
        return Err(Memory);
    };
    let Some(more) = count.checked_add(1) else {
        return Err(Memory);
    };
    let mut refs = Vec::with_capacity(alloc, count)?;
    core_step::reserve(step, more)?;
    core_store_handles::add_refs(&mut step.store, &caps, &mut refs);
    let ended = Ended {
        call,
        outcome,
        refs: Items::from_vec(refs),
    };
    core_step::tell_ended(step, ended);
    Ok(())
}

/// The same value, in memory of its own.
pub(crate) fn copy_value(alloc: Global, value: &Value) -> Result<Value, Memory>
    ensures { IfOk result (λ copy. copy ≡ value.now) }
{
    match value {
        Value::Results(payload, caps) => {
            let payload = payload.copy(alloc)?;
            if caps.is_empty() {
                return Ok(Value::Results(payload, Items::new(alloc)));
            }
            let caps = caps.copy(alloc)?;
            Ok(Value::Results(payload, caps))
        }
        Value::Exception(exception) => {
            let exception = exception.copy(alloc)?;
            Ok(Value::Exception(exception))
        }
    }
}

// What the application is told of a value, and its capabilities.
fn split(alloc: Global, value: Value) -> (Outcome, Items<Node>)
    ensures outcome { result.0 ≡ outcome_of value }
    ensures caps { result.1 ≡ caps_of value }
{
    match value {
        Value::Results(payload, caps) => (Outcome::Results(payload), caps),
        Value::Exception(exception) => (Outcome::Exception(exception), Items::new(alloc)),
    }
}
