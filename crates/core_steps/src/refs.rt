ghost use Rattle.std.specs.Prelude.{◌≡◌, None, [], IfOk, OnErr, ◌<◌, IfSome};
ghost use Rattle.rpc_machine.specs.declared.command.Command.TheVariants as command;
ghost use Rattle.rpc_machine.specs.declared.command.Granted.TheVariants as granted;
ghost use Rattle.rpc_machine.specs.Progress.{quiet};
ghost use Rattle.rpc_machine.specs.Refusals.{refused};
ghost use Rattle.core_store.specs.Holding.{state_of};
ghost use Rattle.core_steps.specs.Whole.{IsResting, Tries};
ghost use Rattle.rpc_machine.specs.Steps.{Does};
ghost use Rattle.core_step.specs.InProgress.{IsIdle, IsReady};
ghost use Rattle.std.specs.FinMap as map;
ghost use Rattle.rpc_machine.specs.Limits.{number_limit};
ghost use Rattle.rpc_machine.specs.State.{State};
ghost use Rattle.core_steps.specs.Undoing.{WasAdvanced};

use crate::machine::Machine;
use crate::quiet_steps::{begin_quietly, end_silently};
use crate::undo::lead_back;
use core_step::{Step, begin};
use core_step_sweeps::{Thought, sweep};
use core_store::Store;
use core_store_handles::put_back_ref;
use rpc_journal::Advanced;
use rpc_machine::{Effects, Reference};
use rpc_msg::{CallId, Items, Memory, ObjectId, Op, RefId};

/// Makes a reference to an object of the application, if that is not refused, and says nothing. `Err` for lack of memory;
/// the vat holds what it held then.
pub fn host(machine: &mut Machine, object: ObjectId) -> Result<RefId, Memory>
    requires resting { IsResting machine.old }
    requires allowed { refused (state_of machine.old.step.store) (command.Host object) ≡ None }
    ensures obeys { Tries machine.old (command.Host object) granted.Reference (λ r. quiet) result machine.new }
    ensures resting { IsResting machine.new }
{
    begin_quietly(&mut machine.step, 1)?;
    let made = core_step_commands::host(&mut machine.step, object);
    end_silently(&mut machine.step);
    Ok(made)
}

/// Makes a second reference with the same head as another, if that is not refused, and says nothing. `Err` for lack of
/// memory; the vat holds what it held then.
pub fn clone_ref(machine: &mut Machine, id: RefId) -> Result<RefId, Memory>
    requires resting { IsResting machine.old }
    requires allowed { refused (state_of machine.old.step.store) (command.CloneRef id) ≡ None }
    ensures obeys { Tries machine.old (command.CloneRef id) granted.Reference (λ r. quiet) result machine.new }
    ensures resting { IsResting machine.new }
{
    begin_quietly(&mut machine.step, 1)?;
    let made = core_step_commands::clone_ref(&mut machine.step, id);
    end_silently(&mut machine.step);
    Ok(made)
}

/// Makes a reference to what stands at a path of a call's results, if that is not refused, and says nothing. `Err` for
/// running out of memory; the vat holds what it held then.
pub fn field(machine: &mut Machine, id: CallId, path: &Items<Op>) -> Result<RefId, Memory>
    requires resting { IsResting machine.old }
    requires allowed { refused (state_of machine.old.step.store) (command.Field id path.now) ≡ None }
    ensures obeys { Tries machine.old (command.Field id path.now) granted.Reference (λ r. quiet) result machine.new }
    ensures resting { IsResting machine.new }
{
    begin_quietly(&mut machine.step, 1)?;
    let made = core_step_commands::field(&mut machine.step, id, path);
    end_silently(&mut machine.step);
    Ok(made)
}

/// Has no more use for a reference, if that is not refused, and gives what the step says. `Err` for lack of memory; the vat holds what it held then.
pub fn drop_ref(machine: &mut Machine, id: RefId) -> Result<Effects, Memory>
    requires resting { IsResting machine.old }
    requires allowed { refused (state_of machine.old.step.store) (command.DropRef id) ≡ None }
    ensures obeys { Tries machine.old (command.DropRef id) (λ e. granted.Done) (λ e. e) result machine.new }
    ensures resting { IsResting machine.new }
{
    let effects = drop_whole(&mut machine.step, &mut machine.thought, id)?;
    Ok(effects)
}

// The step of it.
fn drop_whole(step: &mut Step, thought: &mut Thought, id: RefId) -> Result<Effects, Memory>
    requires idle { IsIdle step.old }
    requires none_taken { step.old.store.waits.taken ≡ [] }
    requires allowed { refused (state_of step.old.store) (command.DropRef id) ≡ None }
    ensures does { IfOk result (λ effects. Does (state_of step.old.store) (command.DropRef id) granted.Done effects (state_of step.new.store)) }
    ensures same { OnErr result (state_of step.new.store ≡ state_of step.old.store) }
    ensures taken { step.new.store.waits.taken ≡ [] }
    ensures idle { IsIdle step.new }
{
    begin(step, 1)?;
    let reference = core_step_commands::drop_ref(step, id);
    let Ok(effects) = sweep(step, thought) else {
        put_back_ref(&mut step.store, id, reference);
        return Err(Memory);
    };
    Ok(effects)
}

/// Lets a reference take the shorter path, if one is known and that is not refused, and gives what it did and what the
/// step says. `Err` for lack of memory; the vat holds what it held then.
pub fn advance(machine: &mut Machine, id: RefId) -> Result<(Advanced, Effects), Memory>
    requires resting { IsResting machine.old }
    requires allowed { refused (state_of machine.old.step.store) (command.Advance id) ≡ None }
    ensures obeys { Tries machine.old (command.Advance id) (λ x. granted.Advanced x.0) (λ x. x.1) result machine.new }
    ensures resting { IsResting machine.new }
{
    let (advanced, effects) = advance_whole(&mut machine.step, &mut machine.thought, id)?;
    Ok((advanced, effects))
}

// The step of it.
fn advance_whole(
    step: &mut Step,
    thought: &mut Thought,
    id: RefId,
) -> Result<(Advanced, Effects), Memory>
    requires idle { IsIdle step.old }
    requires none_taken { step.old.store.waits.taken ≡ [] }
    requires allowed { refused (state_of step.old.store) (command.Advance id) ≡ None }
    ensures does { IfOk result (λ done. Does (state_of step.old.store) (command.Advance id) (granted.Advanced done.0) done.1 (state_of step.new.store)) }
    ensures same { OnErr result (state_of step.new.store ≡ state_of step.old.store) }
    ensures taken { step.new.store.waits.taken ≡ [] }
    ensures idle { IsIdle step.new }
{
    begin(step, 4)?;
    let from = reference_of(&step.store, id);
    let advanced = core_step_commands::advance(step, id);
    let Ok(effects) = sweep(step, thought) else {
        turn_back(step, id, from);
        return Err(Memory);
    };
    Ok((advanced, effects))
}

// A reference, as it stands.
fn reference_of(store: &Store, id: RefId) -> Option<Reference>
    ensures { result ≡ map.get (state_of store.now).refs id.0 }
{
    let Some(reference) = store.refs.get(id.0) else {
        return None;
    };
    Some(Reference {
        head: reference.head,
        embargo: reference.embargo,
        made: reference.made,
    })
}

// A reference that was led elsewhere is led back, and what was said is not said. Takes no memory, but one of the slack.
fn turn_back(step: &mut Step, id: RefId, from: Option<Reference>)
    requires ready { IsReady step.old }
    requires slack { 0 < step.old.store.slack }
    requires given { id.0 < step.old.store.next_ref }
    requires made { IfSome from (λ x. x.made < number_limit) }
    requires none_taken { step.old.store.waits.taken ≡ [] }
    requires settled { step.old.arisen.0 ≡ [] }
    ensures back { (s : State) → WasAdvanced s id.0 from (state_of step.old.store) → (state_of step.new.store ≡ s) × (step.new.store.waits.taken ≡ []) }
    ensures idle { IsIdle step.new }
{
    end_silently(step);
    let Some(reference) = from else {
        return;
    };
    let None = reference.embargo else {
        return;
    };
    lead_back(&mut step.store, id, reference);
}
