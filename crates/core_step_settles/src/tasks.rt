ghost use Rattle.std.specs.Prelude.{◌≡◌, [], OnOk, IfOk};
ghost use Rattle.std.specs.FinMap as map;
ghost use Rattle.rpc_machine.specs.declared.command.Command.TheVariants as command;
ghost use Rattle.rpc_machine.specs.declared.command.Granted.TheVariants as granted;
ghost use Rattle.rpc_machine.specs.Commands.{Acts, AnswersTask, heads};
ghost use Rattle.core_store.specs.Holding.{state_of};
ghost use Rattle.core_step.specs.InProgress.{progress_of, IsReady};

use crate::outcomes::settle_outcome;
use core_step::Step;
use core_store::Store;
use rpc_machine::{Node, Value};
use rpc_msg::{Exception, Items, Memory, Payload, RefId, TaskId};
use std::alloc::Global;

/// A task has its results, with the heads of these references: the outcome of its call becomes known. `Err` for lack of
/// memory, or if a limit is passed; also if there is no such task, which the checks of the command rule out. The step
/// is only to be dropped then.
pub fn answer(
    step: &mut Step,
    alloc: Global,
    task: TaskId,
    payload: Payload,
    refs: Items<RefId>,
) -> Result<(), Memory>
    requires ready { IsReady step.old }
    requires none_taken { step.old.store.waits.taken ≡ [] }
    ensures acts { OnOk result (Acts (progress_of step.old) (command.Answer task payload refs) granted.Done (progress_of step.new)) }
    ensures taken { OnOk result (step.new.store.waits.taken ≡ []) }
    ensures ready { OnOk result (IsReady step.new) }
{
    let caps = heads_of(&step.store, alloc, &refs)?;
    end_with(step, alloc, task, Value::Results(payload, caps))?;
    Ok(())
}

/// A task has failed with that exception: so the outcome of its call becomes known. `Err` as `answer` says.
pub fn fail(
    step: &mut Step,
    alloc: Global,
    task: TaskId,
    exception: Exception,
) -> Result<(), Memory>
    requires ready { IsReady step.old }
    requires none_taken { step.old.store.waits.taken ≡ [] }
    ensures acts { OnOk result (Acts (progress_of step.old) (command.Fail task exception) granted.Done (progress_of step.new)) }
    ensures taken { OnOk result (step.new.store.waits.taken ≡ []) }
    ensures ready { OnOk result (IsReady step.new) }
{
    end_with(step, alloc, task, Value::Exception(exception))?;
    Ok(())
}

// The task ends, and its call has that outcome.
#[inline(always)]
fn end_with(step: &mut Step, alloc: Global, task: TaskId, value: Value) -> Result<(), Memory>
    requires ready { IsReady step.old }
    requires none_taken { step.old.store.waits.taken ≡ [] }
    ensures ended { OnOk result (AnswersTask (progress_of step.old) task.0 value (map.get (state_of step.old.store).tasks task.0) granted.Done (progress_of step.new)) }
    ensures taken { OnOk result (step.new.store.waits.taken ≡ []) }
    ensures ready { OnOk result (IsReady step.new) }
{
    let Some(key) = core_store_handles::end_task(&mut step.store, task) else {
        return Err(Memory);
    };
    settle_outcome(step, alloc, key, value)?;
    Ok(())
}

fn heads_of(store: &Store, alloc: Global, refs: &[RefId]) -> Result<Items<Node>, Memory>
    ensures { IfOk result (λ nodes. nodes ≡ heads (state_of store.now) refs.now) }
{
    let mut nodes = Vec::with_capacity(alloc, refs.len())?;
    core_step_checks::heads(store, refs, &mut nodes);
    Ok(Items::from_vec(nodes))
}
