ghost use Rattle.std.specs.Prelude.{◌≡◌, [], OnOk};
ghost use Rattle.rpc_machine.specs.Settling.{Drains};
ghost use Rattle.core_store.specs.Holding.{state_of};
ghost use Rattle.core_step.specs.InProgress.{progress_of, IsReady};
ghost use Rattle.core_step_sweeps.specs.Over.{AreOver};

use core_step::Step;
use core_step_messages::settles::drain;
use core_step_sweeps::{Thought, find_over};
use rpc_msg::Memory;
use std::alloc::Global;

/// Settles the outcomes that arose in the first act of a step, and those that arise from them behind these, and finds
/// which questions are over then: `end_settled` ends the step with these. `Err` as `drain` says, and if memory was
/// refused to find which questions are over; the step is only to be dropped then. No call may be taken out to be
/// routed.
pub fn settle_step(step: &mut Step, alloc: Global, thought: &mut Thought) -> Result<(), Memory>
    requires ready { IsReady step.old }
    requires none_taken { step.old.store.waits.taken ≡ [] }
    ensures drained { OnOk result (Drains (progress_of step.new) (progress_of step.old)) }
    ensures over { OnOk result (AreOver (state_of step.new.store) thought.new.over.items) }
    ensures settled { OnOk result (step.new.arisen.0 ≡ []) }
    ensures taken { OnOk result (step.new.store.waits.taken ≡ []) }
    ensures ready { OnOk result (IsReady step.new) }
{
    drain(step, alloc)?;
    find_over(&step.store, thought)?;
    Ok(())
}
