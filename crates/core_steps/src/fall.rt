ghost use Rattle.std.specs.Prelude.{◌≡◌, ℕ, true, false, None};
ghost use Rattle.rpc_machine.specs.Down.{falling, silent, fallen, ShutsFrom};
ghost use Rattle.rpc_machine.specs.Numbers.{want_of_room};
ghost use Rattle.core_store.specs.Holding.{state_of};
ghost use Rattle.core_steps.specs.Whole.{fallen_as, IsResting, meets_limit};

use crate::machine::{Machine, Named};
use core_step::Arisen;
use core_step_sweeps::Thought;
use core_store::Store;
use rpc_machine::{Effects, Fault};
use rpc_msg::Items;
use vat_tables::{POOL_LIMIT, TABLE_LIMIT};

/// Takes the vat down with that number, whatever became of its step: one Abort alone is said. If room was lacking, it
/// keeps whether a limit was met. Takes no memory.
pub fn fall_as(machine: &mut Machine, named: Named, number: u16) -> Effects
    requires can_abort { machine.old.spare.can_abort ≡ true }
    ensures effects { result ≡ falling number }
    ensures state { state_of machine.new.step.store ≡ fallen_as named number }
    ensures limit { number ≡ want_of_room → machine.new.met_limit ≡ meets_limit machine.old.step.store }
    ensures resting { IsResting machine.new }
{
    if number == Fault::WantOfRoom.code() {
        machine.met_limit = meets_limit(&machine.step.store);
    }
    let Effects {
        sends: _,
        deliveries: _,
        answers: _,
        down: _,
    } = fall_silently_as(machine, named, number);
    machine.spare.fall(number)
}

// Takes the vat down because there was no memory for its step, or a limit would be passed.
pub(crate) fn fall_for_room(machine: &mut Machine, named: Named) -> Effects
    requires can_abort { machine.old.spare.can_abort ≡ true }
    ensures effects { result ≡ falling want_of_room }
    ensures state { state_of machine.new.step.store ≡ fallen_as named want_of_room }
    ensures limit { machine.new.met_limit ≡ meets_limit machine.old.step.store }
    ensures resting { IsResting machine.new }
{
    fall_as(machine, named, Fault::WantOfRoom.code())
}

// Whether a table is full, or no more calls can wait.
fn meets_limit(store: &Store) -> bool
    ensures { result ≡ meets_limit store.now }
{
    store.questions.len() >= TABLE_LIMIT
        || store.answers.len() >= TABLE_LIMIT
        || store.imports.len() >= TABLE_LIMIT
        || store.exports.len() >= TABLE_LIMIT
        || store.waits.embargoes() >= TABLE_LIMIT
        || store.waits.held() >= POOL_LIMIT
}

/// Takes the vat down with that number, whatever became of its step, and says nothing. Takes no memory.
pub fn fall_silently_as(machine: &mut Machine, named: Named, number: u16) -> Effects
    ensures effects { result ≡ silent number }
    ensures state { state_of machine.new.step.store ≡ fallen_as named number }
    ensures spare { machine.new.spare ≡ machine.old.spare }
    ensures limit { machine.new.met_limit ≡ machine.old.met_limit }
    ensures resting { IsResting machine.new }
{
    machine.step.store.vat = named.vat;
    machine.step.store.level = named.level;
    machine.step.store.bootstrap = named.bootstrap;
    core_store::fall(&mut machine.step.store, number, machine.alloc);
    machine.step.arisen = Arisen::new(machine.alloc);
    machine.thought = Thought::new(machine.alloc);
    machine.step.outbox.fall_silently(number)
}

/// Takes a vat that is up down with that number, and says one Abort; it met no limit. A vat that is down stays as it is. Takes no
/// memory.
pub fn shut(machine: &mut Machine, number: u16) -> Effects
    requires resting { IsResting machine.old }
    ensures limit { machine.old.step.store.down ≡ None → machine.new.met_limit ≡ false }
    ensures shuts { ShutsFrom (state_of machine.old.step.store) number machine.old.step.store.down result (state_of machine.new.step.store) }
    ensures resting { IsResting machine.new }
{
    let None = machine.step.store.down else {
        return Effects {
            sends: Items::new(machine.alloc),
            deliveries: Items::new(machine.alloc),
            answers: Items::new(machine.alloc),
            down: None,
        };
    };
    let named = named_of(&machine.step.store);
    let effects = fall_as(machine, named, number);
    machine.met_limit = false;
    effects
}

// What stays of the vat when it goes down.
pub(crate) fn named_of(store: &Store) -> Named
    ensures { (n : ℕ) → fallen_as result n ≡ fallen (state_of store.now) n }
{
    Named {
        vat: store.vat,
        level: store.level,
        bootstrap: store.bootstrap,
    }
}
