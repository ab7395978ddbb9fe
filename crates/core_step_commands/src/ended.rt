ghost use Rattle.std.specs.Prelude.{◌≡◌, ◌-◌, ◌≤◌, []};
ghost use Rattle.rpc_machine.specs.Settling.{Drains};
ghost use Rattle.core_store.specs.Noted.{noted_of};
ghost use Rattle.core_step.specs.InProgress.{progress_of, IsReady};
ghost use Rattle.core_step_commands.specs.AtOnce.{EndsAtOnce, HasEnded, noted_with};

use core_step::Step;
use rpc_journal::{Ended, Outcome};
use rpc_msg::{CallId, Exception, Items};
use std::alloc::Global;

/// The application is told of a call of its own that ended at once, by the one exception that arose: the outcome keeps that,
/// and the application is told the same, which is given over. All that arose is settled then, and all else is as it was.
/// Takes no memory, but two of the slack.
pub fn settle_ended(step: &mut Step, alloc: Global, call: CallId, told: Exception)
    requires ready { IsReady step.old }
    requires slack { 2 ≤ step.old.store.slack }
    requires none_taken { step.old.store.waits.taken ≡ [] }
    requires ends { EndsAtOnce (progress_of step.old) call told }
    ensures drains { Drains (progress_of step.new) (progress_of step.old) }
    ensures ended { HasEnded (progress_of step.old) (progress_of step.new) call told }
    ensures settled { (progress_of step.new).arisen ≡ [] }
    ensures taken { step.new.store.waits.taken ≡ [] }
    ensures left { step.new.store.slack ≡ step.old.store.slack - 2 }
    ensures noted { noted_of step.new.store.names ≡ noted_with (noted_of step.old.store.names) (progress_of step.old).arisen }
    ensures ready { IsReady step.new }
{
    let Some((key, value)) = core_step::next_arisen(step) else {
        unreachable!()
    };
    let Ok(()) = core_store_waits::know(&mut step.store, key, value) else {
        unreachable!()
    };
    let ended = Ended {
        call,
        outcome: Outcome::Exception(told),
        refs: Items::new(alloc),
    };
    core_step::tell_ended(step, ended);
}
