ghost use Rattle.std.specs.Prelude.{◌≡◌, None, [], OnOk, IfErr};
ghost use Rattle.std.specs.FinMap as map;
ghost use Rattle.rpc_msg.specs.declared.message.PlainMessage.TheVariants as plain;
ghost use Rattle.rpc_machine.specs.Faults.{plain_fault, target_node};
ghost use Rattle.rpc_machine.specs.Advancing.{wire_target};
ghost use Rattle.rpc_machine.specs.Nodes.{settle};
ghost use Rattle.rpc_machine.specs.Messages.{Bounces, Lifts, TakesPlain};
ghost use Rattle.core_store.specs.Holding.{state_of};
ghost use Rattle.core_step.specs.InProgress.{progress_of, IsReady};
ghost use Rattle.core_step_messages.specs.Stopping.{Stops};

use core_step::{Step, reserve, send};
use core_step_checks::{fault_of_disembargo, target_node, wire_target};
use core_step_routes::route_taken;
use core_store::{settle, shorten};
use core_store_handles::lift_from;
use core_store_waits::lift;
use rpc_machine::Fault;
use rpc_msg::{Disembargo, DisembargoContext, EmbargoId, Memory, PlainMessage, Target};
use std::alloc::Global;

// A Disembargo on its way out goes back, to the wire to which its target settles.
fn bounce(step: &mut Step, target: Target, id: EmbargoId) -> Result<(), Memory>
    requires { IsReady step.old }
    ensures bounces { OnOk result (Bounces (progress_of step.old) id (wire_target (settle (state_of step.old.store) (target_node (state_of step.old.store) target))) (progress_of step.new)) }
    ensures taken { OnOk result (step.new.store.waits.taken ≡ step.old.store.waits.taken) }
    ensures ready { OnOk result (IsReady step.new) }
{
    shorten_target(step, &target);
    bounce_back(step, target, id)
}

// Has the target of a message lead at once to where it leads, as far as there is memory for that.
fn shorten_target(step: &mut Step, target: &Target)
    requires { IsReady step.old }
    ensures { step.new ≡ step.old }
{
    let node = target_node(&step.store, target);
    shorten(&mut step.store, node);
}

// The same as `bounce`, if the way from the target is short.
fn bounce_back(step: &mut Step, target: Target, id: EmbargoId) -> Result<(), Memory>
    requires { IsReady step.old }
    ensures bounces { OnOk result (Bounces (progress_of step.old) id (wire_target (settle (state_of step.old.store) (target_node (state_of step.old.store) target))) (progress_of step.new)) }
    ensures taken { OnOk result (step.new.store.waits.taken ≡ step.old.store.waits.taken) }
    ensures ready { OnOk result (IsReady step.new) }
{
    let wire = settle(&step.store, target_node(&step.store, &target));
    // The check found a wire.
    let Some(target) = wire_target(&wire) else {
        return Err(Memory);
    };
    reserve(step, 1)?;
    let context = DisembargoContext::ReceiverLoopback(id);
    send(
        step,
        PlainMessage::Disembargo(Disembargo { target, context }),
    );
    Ok(())
}

// One that is back lifts its embargo: the calls that waited for it are routed.
fn lift_embargo(step: &mut Step, alloc: Global, id: EmbargoId) -> Result<(), Memory>
    requires ready { IsReady step.old }
    ensures lifts { OnOk result (Lifts (progress_of step.old) id.0 (map.get (state_of step.old.store).embargoes id.0) (progress_of step.new)) }
    ensures taken { OnOk result (step.new.store.waits.taken ≡ []) }
    ensures ready { OnOk result (IsReady step.new) }
{
    let (reference, node) = lift(&mut step.store, id)?;
    lift_from(&mut step.store, reference);
    route_taken(step, alloc, node)
}

fn take_context(step: &mut Step, alloc: Global, disembargo: Disembargo) -> Result<(), Memory>
    requires ready { IsReady step.old }
    requires none_taken { step.old.store.waits.taken ≡ [] }
    ensures takes { OnOk result (TakesPlain (progress_of step.old) (plain.Disembargo disembargo) (progress_of step.new)) }
    ensures taken { OnOk result (step.new.store.waits.taken ≡ []) }
    ensures ready { OnOk result (IsReady step.new) }
{
    match disembargo.context {
        DisembargoContext::SenderLoopback(id) => bounce(step, disembargo.target, id),
        DisembargoContext::ReceiverLoopback(id) => lift_embargo(step, alloc, id),
    }
}

/// Takes a Disembargo: on its way out it goes back, and one that is back lifts its embargo, whose calls are routed.
/// Makes the room for it. `Err` with the fault that it is, or for lack of room or of memory; the step is only to be
/// dropped then.
pub fn take_disembargo(step: &mut Step, alloc: Global, disembargo: Disembargo) -> Result<(), Fault>
    requires ready { IsReady step.old }
    requires none_taken { step.old.store.waits.taken ≡ [] }
    ensures none { OnOk result (plain_fault (state_of step.old.store) (plain.Disembargo disembargo) ≡ None) }
    ensures fault { IfErr result (λ f. Stops (plain_fault (state_of step.old.store) (plain.Disembargo disembargo)) f) }
    ensures takes { OnOk result (TakesPlain (progress_of step.old) (plain.Disembargo disembargo) (progress_of step.new)) }
    ensures taken { OnOk result (step.new.store.waits.taken ≡ []) }
    ensures ready { OnOk result (IsReady step.new) }
{
    // A copy: what is passed by value can't be used again, though its type is `Copy`.
    let taken = disembargo;
    fault_of_disembargo(&step.store, disembargo)?;
    let Ok(()) = take_context(step, alloc, taken) else {
        return Err(Fault::WantOfRoom);
    };
    Ok(())
}
