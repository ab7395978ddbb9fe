ghost use Rattle.std.specs.Prelude.{◌≡◌, []};
ghost use Rattle.rpc_machine.specs.Sweeping.{Sweeps, FinishesEach};
ghost use Rattle.core_store.specs.Holding.{state_of};
ghost use Rattle.core_step.specs.InProgress.{progress_of, IsReady, IsEnding};
ghost use Rattle.core_step_sweeps.specs.Ending.{finishing_of, swept_of, AreLeft};
ghost use Rattle.core_step_sweeps.specs.Over.{standing, AreOver};

use crate::finishes::finish_next;
use crate::notes::forget_questions;
use core_step::Step;
use core_step_collects::collect_ending;
use rpc_msg::QuestionId;

/// The end of a step: these questions, which are over, are finished in order, what no place names having gone before each
/// flag is made, and then what no place names goes. Finishes and Releases stand in the outbox then, which hands out the
/// effects of the step as swept. Takes no memory. No call may be taken out to be routed.
pub fn sweep_over(step: &mut Step, over: &[QuestionId])
    requires ready { IsReady step.old }
    requires none_taken { step.old.store.waits.taken ≡ [] }
    requires over { AreOver (state_of step.old.store) over.now }
    ensures swept { Sweeps (progress_of step.old) (swept_of step.new) }
    ensures state { (swept_of step.new).state ≡ state_of step.new.store }
    ensures arisen { step.new.arisen ≡ step.old.arisen }
    ensures taken { step.new.store.waits.taken ≡ [] }
    ensures ending { IsEnding step.new }
{
    finish_any(step, over);
    collect_ending(step);
    forget_questions(&mut step.store);
}

// These questions are finished in order, those that are there. Mostly there is none.
fn finish_any(step: &mut Step, over: &[QuestionId])
    requires ending { IsEnding step.old }
    requires none_taken { step.old.store.waits.taken ≡ [] }
    requires left { AreLeft (state_of step.old.store) step.old over.now }
    ensures each { FinishesEach (finishing_of step.old) (standing (state_of step.old.store) over.now) (finishing_of step.new) }
    ensures arisen { step.new.arisen ≡ step.old.arisen }
    ensures taken { step.new.store.waits.taken ≡ [] }
    ensures ending { IsEnding step.new }
{
    if over.is_empty() {
        return;
    }
    finish_each(step, over);
}

// So are these.
#[inline(never)]
fn finish_each(step: &mut Step, over: &[QuestionId])
    requires ending { IsEnding step.old }
    requires none_taken { step.old.store.waits.taken ≡ [] }
    requires left { AreLeft (state_of step.old.store) step.old over.now }
    ensures each { FinishesEach (finishing_of step.old) (standing (state_of step.old.store) over.now) (finishing_of step.new) }
    ensures arisen { step.new.arisen ≡ step.old.arisen }
    ensures taken { step.new.store.waits.taken ≡ [] }
    ensures ending { IsEnding step.new }
{
    for q in over {
        finish_next(step, *q);
    }
}
