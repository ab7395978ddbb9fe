ghost use Rattle.std.specs.Prelude.{◌≡◌, [], OnOk};
ghost use Rattle.rpc_machine.specs.declared.command.Command.TheVariants as command;
ghost use Rattle.rpc_machine.specs.declared.command.Granted.TheVariants as granted;
ghost use Rattle.rpc_machine.specs.Commands.{Acts};
ghost use Rattle.core_step.specs.InProgress.{progress_of, IsReady};

use crate::fixed_promises::fix_promise;
use core_step::Step;
use rpc_machine::{Node, Reason};
use rpc_msg::{Exception, Memory, PromiseId, RefId};
use std::alloc::Global;

/// A promise is fixed to the head of a reference. `Err` for lack of memory, or if a limit is met; also if there is
/// no such promise or reference, which the checks of the command rule out. The step is only to be dropped then.
pub fn resolve(
    step: &mut Step,
    alloc: Global,
    promise: PromiseId,
    reference: RefId,
) -> Result<(), Memory>
    requires ready { IsReady step.old }
    ensures acts { OnOk result (Acts (progress_of step.old) (command.Resolve promise reference) granted.Done (progress_of step.new)) }
    ensures none { OnOk result (step.new.store.waits.taken ≡ []) }
    ensures ready { OnOk result (IsReady step.new) }
{
    let Some(reference) = step.store.refs.get(reference.0) else {
        return Err(Memory);
    };
    let head = reference.head;
    let Some(key) = core_store_handles::settle_number(&mut step.store, promise) else {
        return Err(Memory);
    };
    fix_promise(step, alloc, key, head, None)
}

/// A promise is broken, with that exception. `Err` as `resolve` answers it.
pub fn reject(
    step: &mut Step,
    alloc: Global,
    promise: PromiseId,
    exception: Exception,
) -> Result<(), Memory>
    requires ready { IsReady step.old }
    ensures acts { OnOk result (Acts (progress_of step.old) (command.Reject promise exception) granted.Done (progress_of step.new)) }
    ensures none { OnOk result (step.new.store.waits.taken ≡ []) }
    ensures ready { OnOk result (IsReady step.new) }
{
    let Some(key) = core_store_handles::settle_number(&mut step.store, promise) else {
        return Err(Memory);
    };
    let broken = Node::Broken(Reason::BrokenPromise);
    fix_promise(step, alloc, key, broken, Some(exception))
}
