ghost use Rattle.std.specs.Prelude.{◌≡◌, ◌≤◌, ◌+◌, IsOk, IsTrue, OnOk, OnErr};
ghost use Rattle.std.specs.FinMap as map;
ghost use Rattle.rpc_machine.specs.Progress.{begin};
ghost use Rattle.core_store.specs.Holding.{state_of, IsSound, IsSameButRoom};
ghost use Rattle.core_step.specs.InProgress.{progress_of, IsIdle, IsReady};

use crate::step::Step;
use core_store::Store;
use rpc_msg::Memory;

// What is reserved beyond what is asked, so that room is seldom made.
const SPARE: usize = 52;

/// Begins a step, with room for so many entries of every kind, names, messages, deliveries, ends and outcomes, and for the
/// Finish of each question and the Release of each import. `Err` if a growth was refused; no step is begun then, and at
/// most room is changed.
#[inline(never)]
pub fn begin(step: &mut Step, more: usize) -> Result<(), Memory>
    requires { IsIdle step.old }
    ensures store { IsSameButRoom step.old.store step.new.store }
    ensures begun { OnOk result (progress_of step.new ≡ begin (state_of step.old.store)) }
    ensures ready { OnOk result (IsReady step.new) }
    ensures ok { OnOk result (more ≤ step.new.store.slack) }
    ensures idle { OnErr result (IsIdle step.new) }
{
    if more <= step.store.slack && has_room(step, step.store.slack) {
        return Ok(());
    }
    begin_in_new_room(step, more)
}

// The same, if there is not enough room.
#[cold]
#[inline(never)]
fn begin_in_new_room(step: &mut Step, more: usize) -> Result<(), Memory>
    requires { IsIdle step.old }
    ensures store { IsSameButRoom step.old.store step.new.store }
    ensures begun { OnOk result (progress_of step.new ≡ begin (state_of step.old.store)) }
    ensures ready { OnOk result (IsReady step.new) }
    ensures ok { OnOk result (more ≤ step.new.store.slack) }
    ensures idle { OnErr result (IsIdle step.new) }
{
    reserve_store(&mut step.store, more)?;
    make_room(step, step.store.slack)
}

/// Makes room, so that so many more entries of every kind, names, messages, deliveries, ends and outcomes need no more
/// memory; at once if there is enough. `Err` if a growth was refused; there may be less room then. All else stays.
pub fn reserve(step: &mut Step, more: usize) -> Result<(), Memory>
    requires { IsReady step.old }
    ensures same { progress_of step.new ≡ progress_of step.old }
    ensures store { IsSameButRoom step.old.store step.new.store }
    ensures ready { IsReady step.new }
    ensures ok { OnOk result (more ≤ step.new.store.slack) }
    ensures had_room { more ≤ step.old.store.slack → IsOk result }
{
    if more <= step.store.slack {
        return Ok(());
    }
    reserve_more(step, more)
}

// The same, if there is not enough room.
#[cold]
#[inline(never)]
fn reserve_more(step: &mut Step, more: usize) -> Result<(), Memory>
    requires { IsReady step.old }
    ensures same { progress_of step.new ≡ progress_of step.old }
    ensures store { IsSameButRoom step.old.store step.new.store }
    ensures ready { IsReady step.new }
    ensures ok { OnOk result (more ≤ step.new.store.slack) }
{
    let made = reserve_store(&mut step.store, more);
    let room = step.store.slack;
    step.store.slack = 0;
    made?;
    make_room(step, room)?;
    step.store.slack = room;
    Ok(())
}

// Makes room for so many more entries and names, and for more than that if there is not enough.
#[inline(always)]
fn reserve_store(store: &mut Store, more: usize) -> Result<(), Memory>
    requires { IsSound store.old }
    ensures same { IsSameButRoom store.old store.new }
    ensures sound { IsSound store.new }
    ensures ok { OnOk result (more ≤ store.new.slack) }
{
    if more <= store.slack {
        return Ok(());
    }
    let Some(wanted) = more.checked_add(SPARE) else {
        return Err(Memory);
    };
    core_store::reserve(store, wanted)?;
    Ok(())
}

// Whether there is room for what the step says, and for the outcomes that arise in it.
fn has_room(step: &Step, more: usize) -> bool
    ensures { IsTrue result →
        (more ≤ step.now.outbox.room)
        × (more ≤ step.now.arisen.1)
        × (map.len step.now.store.questions.entries + more ≤ step.now.outbox.finish_room)
        × (map.len step.now.store.imports.entries + more ≤ step.now.outbox.release_room) }
{
    let Some(finishes) = more.checked_add(step.store.questions.len()) else {
        return false;
    };
    let Some(releases) = more.checked_add(step.store.imports.len()) else {
        return false;
    };
    step.outbox.has_room(more, finishes, releases) && step.arisen.has_room(more)
}

// Makes room for what the step says, and for the outcomes that arise in it.
fn make_room(step: &mut Step, more: usize) -> Result<(), Memory>
    ensures store { step.new.store ≡ step.old.store }
    ensures outbox { step.new.outbox ≡ record step.old.outbox { room = step.new.outbox.room; finish_room = step.new.outbox.finish_room; release_room = step.new.outbox.release_room } }
    ensures arisen { step.new.arisen.0 ≡ step.old.arisen.0 }
    ensures ok { OnOk result ((more ≤ step.new.outbox.room) × (more ≤ step.new.arisen.1)) }
    ensures ends { OnOk result (
        (map.len step.new.store.questions.entries + more ≤ step.new.outbox.finish_room)
        × (map.len step.new.store.imports.entries + more ≤ step.new.outbox.release_room)) }
    ensures keeps { (step.old.outbox.finish_room ≤ step.new.outbox.finish_room) × (step.old.outbox.release_room ≤ step.new.outbox.release_room) }
{
    let Some(finishes) = more.checked_add(step.store.questions.len()) else {
        return Err(Memory);
    };
    let Some(releases) = more.checked_add(step.store.imports.len()) else {
        return Err(Memory);
    };
    // The greater part first: what is reserved beyond it is mostly enough for the rest.
    step.outbox.reserve_ends(finishes, releases)?;
    step.outbox.reserve(more)?;
    step.arisen.reserve(more)
}
