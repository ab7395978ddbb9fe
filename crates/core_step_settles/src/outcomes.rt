ghost use Rattle.std.specs.Prelude.{◌≡◌, [], length, OnOk};
ghost use Rattle.std.specs.FinMap as map;
ghost use Rattle.rpc_machine.specs.Progress.{with_state, caps_of};
ghost use Rattle.rpc_machine.specs.Settling.{Tells, SettlesOutcome};
ghost use Rattle.core_store.specs.Holding.{state_of};
ghost use Rattle.core_store_waits.specs.Changes.{Knows, TakesHeld};
ghost use Rattle.core_step.specs.InProgress.{progress_of, IsReady};
ghost use Rattle.core_step_settles.specs.Waiting.{RoutesWaiting};

use crate::answers::returns;
use crate::cycles::fit;
use crate::ended_calls::{copy_value, tell_call};
use crate::export_resolves::resolve_fields;
use core_step::Step;
use core_step_routes::route_held;
use rpc_machine::{Caller, Value};
use rpc_msg::Memory;
use std::alloc::Global;

/// An outcome becomes known: its caller is told, the calls that waited for it are routed in order, and the exports of its
/// fields get their Resolves. The value is copied once. `Err` for lack of memory, if a limit is passed, or if the
/// outcome is not there or is known, which does not come for one that arose; the step is only to be dropped then.
pub fn settle_outcome(step: &mut Step, alloc: Global, key: u64, value: Value) -> Result<(), Memory>
    requires ready { IsReady step.old }
    requires none_taken { step.old.store.waits.taken ≡ [] }
    ensures settled { OnOk result (SettlesOutcome (progress_of step.old) key value (progress_of step.new)) }
    ensures taken { OnOk result (step.new.store.waits.taken ≡ []) }
    ensures ready { OnOk result (IsReady step.new) }
{
    let Some(caller) = step.store.waits.caller(key) else {
        return Err(Memory);
    };
    let fitted = fit(step, alloc, key, value)?;
    let told = copy_value(alloc, &fitted)?;
    make_known(step, key, fitted)?;
    tells(step, alloc, caller, told)?;
    // The outcome is there still: what goes before a Return is made leaves that of an answer which is open.
    route_waiting(step, alloc, key)?;
    resolve_fields(step, alloc, key)?;
    Ok(())
}

/// The caller of an outcome is told: an own application as by `tell_call`, the peer as by `returns`.
pub fn tells(step: &mut Step, alloc: Global, caller: Caller, value: Value) -> Result<(), Memory>
    requires ready { IsReady step.old }
    requires none_taken { step.old.store.waits.taken ≡ [] }
    ensures told { OnOk result (Tells (progress_of step.old) caller value (progress_of step.new)) }
    ensures taken { OnOk result (step.new.store.waits.taken ≡ []) }
    ensures ready { OnOk result (IsReady step.new) }
{
    match caller {
        Caller::Application(call) => {
            tell_call(step, alloc, call, value)?;
            Ok(())
        }
        Caller::Peer(q) => {
            returns(step, alloc, q, value)?;
            Ok(())
        }
    }
}

// The outcome is known from now on; the calls that wait for it still do.
fn make_known(step: &mut Step, key: u64, value: Value) -> Result<(), Memory>
    requires ready { IsReady step.old }
    ensures known { OnOk result (Knows (state_of step.old.store) key value (map.get (state_of step.old.store).outcomes key) (state_of step.new.store)) }
    ensures same { OnOk result (progress_of step.new ≡ with_state (progress_of step.old) (state_of step.new.store)) }
    ensures taken { OnOk result (step.new.store.waits.taken ≡ step.old.store.waits.taken) }
    ensures ready { OnOk result (IsReady step.new) }
{
    let Some(more) = count_caps(&value).checked_add(1) else {
        return Err(Memory);
    };
    core_step::reserve(step, more)?;
    core_store_waits::know(&mut step.store, key, value)?;
    Ok(())
}

// The calls that wait for the outcome, if any does, are taken out and routed in order.
fn route_waiting(step: &mut Step, alloc: Global, key: u64) -> Result<(), Memory>
    requires ready { IsReady step.old }
    requires none_taken { step.old.store.waits.taken ≡ [] }
    ensures routed { OnOk result (RoutesWaiting (progress_of step.old) key (map.get (state_of step.old.store).outcomes key) (progress_of step.new)) }
    ensures taken { OnOk result (step.new.store.waits.taken ≡ []) }
    ensures ready { OnOk result (IsReady step.new) }
{
    let Some(_caller) = step.store.waits.caller(key) else {
        return Err(Memory);
    };
    if !step.store.waits.is_awaited(key) {
        return Ok(());
    }
    free_held(step, key)?;
    route_held(step, alloc, key)?;
    Ok(())
}

// The calls that wait for the outcome are taken out.
fn free_held(step: &mut Step, key: u64) -> Result<(), Memory>
    requires ready { IsReady step.old }
    ensures freed { OnOk result (TakesHeld (state_of step.old.store) key (map.get (state_of step.old.store).outcomes key) (state_of step.new.store) step.new.store.waits.taken) }
    ensures same { OnOk result (progress_of step.new ≡ with_state (progress_of step.old) (state_of step.new.store)) }
    ensures ready { OnOk result (IsReady step.new) }
{
    core_step::reserve(step, 1)?;
    core_store_waits::take_held(&mut step.store, key)?;
    Ok(())
}

fn count_caps(value: &Value) -> usize
    ensures { result ≡ length (caps_of value.now) }
{
    match value {
        Value::Results(_, caps) => caps.len(),
        Value::Exception(_) => 0,
    }
}
