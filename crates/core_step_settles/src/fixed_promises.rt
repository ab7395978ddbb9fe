ghost use Rattle.std.specs.Prelude.{◌≡◌, [], OnOk};
ghost use Rattle.rpc_machine.specs.Settling.{FixesPromise};
ghost use Rattle.core_step.specs.InProgress.{progress_of, IsReady};

use crate::export_resolves::resolve_promises;
use core_step::Step;
use rpc_machine::Node;
use rpc_msg::{Exception, Memory};
use std::alloc::Global;

/// The promise under that key is fixed to a node: the calls that waited are routed in order, then its exports get their
/// Resolves. If the promise is broken these say the exception, if there is one. `Err` for lack of memory, if a
/// limit is met, if there is no such open promise, or if calls that were taken out before are not all handed out;
/// the step is only to be dropped then.
pub fn fix_promise(
    step: &mut Step,
    alloc: Global,
    key: u64,
    to: Node,
    told: Option<Exception>,
) -> Result<(), Memory>
    requires ready { IsReady step.old }
    ensures fixed { OnOk result (FixesPromise (progress_of step.old) key to told (progress_of step.new)) }
    ensures none { OnOk result (step.new.store.waits.taken ≡ []) }
    ensures ready { OnOk result (IsReady step.new) }
{
    core_step::reserve(step, 1)?;
    core_store_waits::fix(&mut step.store, key, to)?;
    core_step_routes::route_taken(step, alloc, Node::Promise(key))?;
    resolve_promises(step, alloc, key, told)
}
