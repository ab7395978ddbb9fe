ghost use Rattle.std.specs.Prelude.{◌≡◌, [], OnOk};
ghost use Rattle.rpc_machine.specs.Settling.{Drains};
ghost use Rattle.core_step.specs.InProgress.{progress_of, IsReady};

use crate::outcomes::settle_outcome;
use core_step::{Step, next_arisen};
use rpc_msg::Memory;
use std::alloc::Global;

/// Settles the outcomes that arose, in order, and those that arise from them behind these, until none is left. `Err` as
/// `settle_outcome` says; the step is only to be dropped then.
pub fn drain(step: &mut Step, alloc: Global) -> Result<(), Memory>
    requires ready { IsReady step.old }
    requires none_taken { step.old.store.waits.taken ≡ [] }
    ensures drained { OnOk result (Drains (progress_of step.new) (progress_of step.old)) }
    ensures taken { OnOk result (step.new.store.waits.taken ≡ []) }
    ensures ready { OnOk result (IsReady step.new) }
{
    'arisen: while let Some((key, value)) = next_arisen(step) {
        settle_outcome(step, alloc, key, value)?;
    }
    Ok(())
}
