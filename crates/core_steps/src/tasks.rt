ghost use Rattle.std.specs.Prelude.{◌≡◌, None, Ok, [], OnOk};
ghost use Rattle.rpc_machine.specs.declared.command.Command.TheVariants as command;
ghost use Rattle.rpc_machine.specs.declared.command.Granted.TheVariants as granted;
ghost use Rattle.rpc_machine.specs.Refusals.{refused};
ghost use Rattle.rpc_machine.specs.Steps.{Obeys};
ghost use Rattle.core_store.specs.Holding.{state_of};
ghost use Rattle.core_step.specs.InProgress.{progress_of, IsIdle, IsReady};
ghost use Rattle.core_step_sweeps.specs.Over.{AreOver};
ghost use Rattle.core_steps.specs.Whole.{IsResting, WasDone};

use crate::fall::{fall_for_room, named_of};
use crate::machine::Machine;
use crate::settlement::settle_step;
use core_step::{Step, begin};
use core_step_messages::settles;
use core_step_sweeps::{Thought, end_settled};
use rpc_machine::Effects;
use rpc_msg::{Exception, Items, Memory, Payload, RefId, TaskId};
use std::alloc::Global;

/// Gives a task its results, with the heads of these references, if that is not refused; the vat goes down as `resolve` says.
pub fn answer(machine: &mut Machine, task: TaskId, payload: Payload, refs: Items<RefId>) -> Effects
    requires resting { IsResting machine.old }
    requires allowed { refused (state_of machine.old.step.store) (command.Answer task payload refs) ≡ None }
    ensures obeys { Obeys (state_of machine.old.step.store) (command.Answer task payload refs) (Ok granted.Done) result (state_of machine.new.step.store) }
    ensures resting { IsResting machine.new }
{
    let named = named_of(&machine.step.store);
    let step = &mut machine.step;
    let ended = answer_whole(
        step,
        &mut machine.thought,
        machine.alloc,
        task,
        payload,
        refs,
    );
    let Ok(()) = ended else {
        return fall_for_room(machine, named);
    };
    end_settled(&mut machine.step, machine.thought.over.as_slice())
}

// The step of it. After an `Err` the vat goes down.
fn answer_whole(
    step: &mut Step,
    thought: &mut Thought,
    alloc: Global,
    task: TaskId,
    payload: Payload,
    refs: Items<RefId>,
) -> Result<(), Memory>
    requires idle { IsIdle step.old }
    requires none_taken { step.old.store.waits.taken ≡ [] }
    ensures done { OnOk result (WasDone (state_of step.old.store) (command.Answer task payload refs) granted.Done (progress_of step.new)) }
    ensures over { OnOk result (AreOver (state_of step.new.store) thought.new.over.items) }
    ensures settled { OnOk result (step.new.arisen.0 ≡ []) }
    ensures taken { OnOk result (step.new.store.waits.taken ≡ []) }
    ensures ready { OnOk result (IsReady step.new) }
{
    begin(step, 1)?;
    settles::answer(step, alloc, task, payload, refs)?;
    settle_step(step, alloc, thought)?;
    Ok(())
}

/// Gives a task an exception, if that is not refused; the vat goes down as `resolve` says.
pub fn fail(machine: &mut Machine, task: TaskId, exception: Exception) -> Effects
    requires resting { IsResting machine.old }
    requires allowed { refused (state_of machine.old.step.store) (command.Fail task exception) ≡ None }
    ensures obeys { Obeys (state_of machine.old.step.store) (command.Fail task exception) (Ok granted.Done) result (state_of machine.new.step.store) }
    ensures resting { IsResting machine.new }
{
    let named = named_of(&machine.step.store);
    let step = &mut machine.step;
    let ended = fail_whole(step, &mut machine.thought, machine.alloc, task, exception);
    let Ok(()) = ended else {
        return fall_for_room(machine, named);
    };
    end_settled(&mut machine.step, machine.thought.over.as_slice())
}

// The step of it. After an `Err` the vat goes down.
fn fail_whole(
    step: &mut Step,
    thought: &mut Thought,
    alloc: Global,
    task: TaskId,
    exception: Exception,
) -> Result<(), Memory>
    requires idle { IsIdle step.old }
    requires none_taken { step.old.store.waits.taken ≡ [] }
    ensures done { OnOk result (WasDone (state_of step.old.store) (command.Fail task exception) granted.Done (progress_of step.new)) }
    ensures over { OnOk result (AreOver (state_of step.new.store) thought.new.over.items) }
    ensures settled { OnOk result (step.new.arisen.0 ≡ []) }
    ensures taken { OnOk result (step.new.store.waits.taken ≡ []) }
    ensures ready { OnOk result (IsReady step.new) }
{
    begin(step, 1)?;
    settles::fail(step, alloc, task, exception)?;
    settle_step(step, alloc, thought)?;
    Ok(())
}
