ghost use Rattle.std.specs.Prelude.{◌≡◌, None, Ok, [], OnOk};
ghost use Rattle.rpc_machine.specs.declared.command.Command.TheVariants as command;
ghost use Rattle.rpc_machine.specs.declared.command.Granted.TheVariants as granted;
ghost use Rattle.rpc_machine.specs.Refusals.{refused};
ghost use Rattle.rpc_machine.specs.Steps.{Obeys};
ghost use Rattle.core_store.specs.Holding.{state_of};
ghost use Rattle.core_step.specs.InProgress.{progress_of, IsIdle, IsReady};
ghost use Rattle.core_step_sweeps.specs.Over.{AreOver};
ghost use Rattle.core_steps.specs.Whole.{IsResting, WasDone, Tries};
ghost use Rattle.rpc_machine.specs.Progress.{quiet};

use crate::fall::{fall_for_room, named_of};
use crate::machine::Machine;
use crate::quiet_steps::{begin_quietly, end_silently};
use crate::settlement::settle_step;
use core_step::{Step, begin};
use core_step_messages::settles;
use core_step_sweeps::{Thought, end_settled};
use rpc_machine::Effects;
use rpc_msg::{Exception, Memory, PromiseId, RefId};
use std::alloc::Global;

/// Settles a promise to what a reference leads to, if that is not refused. If memory is refused, or a limit met, the
/// vat goes down.
pub fn resolve(machine: &mut Machine, promise: PromiseId, reference: RefId) -> Effects
    requires resting { IsResting machine.old }
    requires allowed { refused (state_of machine.old.step.store) (command.Resolve promise reference) ≡ None }
    ensures obeys { Obeys (state_of machine.old.step.store) (command.Resolve promise reference) (Ok granted.Done) result (state_of machine.new.step.store) }
    ensures resting { IsResting machine.new }
{
    let named = named_of(&machine.step.store);
    let step = &mut machine.step;
    let ended = resolve_whole(
        step,
        &mut machine.thought,
        machine.alloc,
        promise,
        reference,
    );
    let Ok(()) = ended else {
        return fall_for_room(machine, named);
    };
    end_settled(&mut machine.step, machine.thought.over.as_slice())
}

// The step of it. After an `Err` the vat goes down.
fn resolve_whole(
    step: &mut Step,
    thought: &mut Thought,
    alloc: Global,
    promise: PromiseId,
    reference: RefId,
) -> Result<(), Memory>
    requires idle { IsIdle step.old }
    requires none_taken { step.old.store.waits.taken ≡ [] }
    ensures done { OnOk result (WasDone (state_of step.old.store) (command.Resolve promise reference) granted.Done (progress_of step.new)) }
    ensures over { OnOk result (AreOver (state_of step.new.store) thought.new.over.items) }
    ensures settled { OnOk result (step.new.arisen.0 ≡ []) }
    ensures taken { OnOk result (step.new.store.waits.taken ≡ []) }
    ensures ready { OnOk result (IsReady step.new) }
{
    begin(step, 1)?;
    settles::resolve(step, alloc, promise, reference)?;
    settle_step(step, alloc, thought)?;
    Ok(())
}

/// Breaks a promise, if that is not refused; the vat goes down as `resolve` says.
pub fn reject(machine: &mut Machine, promise: PromiseId, exception: Exception) -> Effects
    requires resting { IsResting machine.old }
    requires allowed { refused (state_of machine.old.step.store) (command.Reject promise exception) ≡ None }
    ensures obeys { Obeys (state_of machine.old.step.store) (command.Reject promise exception) (Ok granted.Done) result (state_of machine.new.step.store) }
    ensures resting { IsResting machine.new }
{
    let named = named_of(&machine.step.store);
    let step = &mut machine.step;
    let ended = reject_whole(
        step,
        &mut machine.thought,
        machine.alloc,
        promise,
        exception,
    );
    let Ok(()) = ended else {
        return fall_for_room(machine, named);
    };
    end_settled(&mut machine.step, machine.thought.over.as_slice())
}

// The step of it. After an `Err` the vat goes down.
fn reject_whole(
    step: &mut Step,
    thought: &mut Thought,
    alloc: Global,
    promise: PromiseId,
    exception: Exception,
) -> Result<(), Memory>
    requires idle { IsIdle step.old }
    requires none_taken { step.old.store.waits.taken ≡ [] }
    ensures done { OnOk result (WasDone (state_of step.old.store) (command.Reject promise exception) granted.Done (progress_of step.new)) }
    ensures over { OnOk result (AreOver (state_of step.new.store) thought.new.over.items) }
    ensures settled { OnOk result (step.new.arisen.0 ≡ []) }
    ensures taken { OnOk result (step.new.store.waits.taken ≡ []) }
    ensures ready { OnOk result (IsReady step.new) }
{
    begin(step, 1)?;
    settles::reject(step, alloc, promise, exception)?;
    settle_step(step, alloc, thought)?;
    Ok(())
}

/// Makes a promise that is open, and a reference to it, if that is not refused, and says nothing. `Err` for lack of
/// memory; the vat holds what it held then.
pub fn promise(machine: &mut Machine) -> Result<(PromiseId, RefId), Memory>
    requires resting { IsResting machine.old }
    requires allowed { refused (state_of machine.old.step.store) command.Promise ≡ None }
    ensures obeys { Tries machine.old command.Promise (λ x. granted.Promise x.0 x.1) (λ x. quiet) result machine.new }
    ensures resting { IsResting machine.new }
{
    begin_quietly(&mut machine.step, 3)?;
    let made = core_step_commands::promise(&mut machine.step);
    end_silently(&mut machine.step);
    Ok(made)
}
