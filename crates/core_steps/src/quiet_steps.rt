ghost use Rattle.std.specs.Prelude.{◌≡◌, ◌≤◌, [], OnOk, OnErr};
ghost use Rattle.rpc_machine.specs.Progress.{begin};
ghost use Rattle.core_store.specs.Holding.{state_of};
ghost use Rattle.core_store.specs.Noted.{noted_of, nothing_noted};
ghost use Rattle.core_step.specs.InProgress.{progress_of, IsReady, IsIdle};
ghost use Rattle.core_step_sweeps.specs.Thinking.{IsQuiet};
ghost use Rattle.core_outbox.specs.Outgoing.{emptied};

use core_step::{Step, begin};
use core_step_sweeps::rest;
use rpc_machine::Effects;
use rpc_msg::Memory;

/// Begins a step in which nothing is to go, with room for so many entries of every kind, names, messages, deliveries, ends
/// and outcomes: nothing is loose, no question is to be finished, and nothing is noted. `Err` if a growth was refused, or
/// if something would go, which does not come between two steps; no step is begun then. No call may be taken out to be
/// routed.
pub fn begin_quietly(step: &mut Step, more: usize) -> Result<(), Memory>
    requires idle { IsIdle step.old }
    requires none_taken { step.old.store.waits.taken ≡ [] }
    ensures begun { OnOk result (progress_of step.new ≡ begin (state_of step.old.store)) }
    ensures ready { OnOk result (IsReady step.new) }
    ensures slack { OnOk result (more ≤ step.new.store.slack) }
    ensures calm { OnOk result (IsQuiet (state_of step.old.store)) }
    ensures rested { OnOk result (noted_of step.new.store.names ≡ nothing_noted) }
    ensures same { state_of step.new.store ≡ state_of step.old.store }
    ensures taken { step.new.store.waits.taken ≡ [] }
    ensures idle { OnErr result (IsIdle step.new) }
{
    rest(&mut step.store)?;
    begin(step, more)
}

/// Ends a step and says nothing: what was to be said is let go, and its room is given back if it is much.
pub fn end_silently(step: &mut Step)
    ensures store { step.new.store ≡ step.old.store }
    ensures outbox { step.new.outbox ≡ record (emptied step.old.outbox) { room = step.new.outbox.room; finish_room = step.new.outbox.finish_room; release_room = step.new.outbox.release_room } }
    ensures arisen { step.new.arisen ≡ step.old.arisen }
{
    let Effects {
        sends: _,
        deliveries: _,
        answers: _,
        down: _,
    } = step.outbox.take();
}
