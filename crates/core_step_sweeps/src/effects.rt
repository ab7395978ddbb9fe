ghost use Rattle.std.specs.Prelude.{◌≡◌, ℕ, [], IsOk, IfOk, OnOk, OnErr};
ghost use Rattle.std.specs.FinMap as map;
ghost use Rattle.rpc_machine.specs.Collecting.{IsTight};
ghost use Rattle.rpc_machine.specs.Progress.{Progress};
ghost use Rattle.rpc_machine.specs.Settling.{Drains};
ghost use Rattle.rpc_machine.specs.Steps.{Ends};
ghost use Rattle.rpc_machine.specs.Sweeping.{IsToFinish};
ghost use Rattle.core_store.specs.Holding.{state_of};
ghost use Rattle.core_store.specs.Noted.{noted_of, nothing_noted};
ghost use Rattle.core_step.specs.InProgress.{progress_of, IsReady, IsIdle};
ghost use Rattle.core_step_sweeps.specs.Over.{AreOver};

use crate::over::find_over;
use crate::sweeps::sweep_over;
use crate::thought::Thought;
use core_step::Step;
use rpc_machine::Effects;
use rpc_msg::{Memory, QuestionId};

/// Ends a step whose outcomes are settled and in which these questions are over, and hands out what it says. No step is in
/// progress then. Takes no memory. No call may be taken out to be routed.
#[inline(never)]
pub fn end_settled(step: &mut Step, over: &[QuestionId]) -> Effects
    requires ready { IsReady step.old }
    requires none_taken { step.old.store.waits.taken ≡ [] }
    requires settled { step.old.arisen.0 ≡ [] }
    requires over { AreOver (state_of step.old.store) over.now }
    ensures ends { (acted : Progress) → Drains (progress_of step.old) acted → Ends acted result (state_of step.new.store) }
    ensures taken { step.new.store.waits.taken ≡ [] }
    ensures idle { IsIdle step.new }
{
    sweep_over(step, over);
    step.outbox.take()
}

/// Ends a step whose outcomes are settled, and hands out what it says: finds which questions are over, and finishes these.
/// No step is in progress then. `Err` if memory was refused for finding them; the step is as it was then. No call may be
/// taken out to be routed.
pub fn sweep(step: &mut Step, thought: &mut Thought) -> Result<Effects, Memory>
    requires ready { IsReady step.old }
    requires none_taken { step.old.store.waits.taken ≡ [] }
    requires settled { step.old.arisen.0 ≡ [] }
    ensures ends { IfOk result (λ effects. (acted : Progress) → Drains (progress_of step.old) acted → Ends acted effects (state_of step.new.store)) }
    ensures taken { OnOk result (step.new.store.waits.taken ≡ []) }
    ensures idle { OnOk result (IsIdle step.new) }
    ensures never { IsTight (state_of step.old.store) → ((q : ℕ) → ¬ (IsToFinish (state_of step.old.store) q (map.get (state_of step.old.store).questions q))) → IsOk result }
    ensures rested { noted_of step.old.store.names ≡ nothing_noted → IsOk result }
    ensures same { OnErr result (step.new ≡ step.old) }
{
    find_over(&step.store, thought)?;
    Ok(end_settled(step, thought.over.as_slice()))
}
