ghost use Rattle.std.specs.Prelude.{◌≡◌, ◌+◌, ◌<◌, [], None, Some};
ghost use Rattle.std.specs.FinMap as map;
ghost use Rattle.rpc_machine.specs.State.{State};
ghost use Rattle.rpc_machine.specs.Limits.{number_limit};
ghost use Rattle.core_store.specs.Holding.{state_of, IsSound};
ghost use Rattle.core_steps.specs.Undoing.{WasLed, LiftsOf};

use core_store::Store;
use core_store_handles::{forget_ref, put_back_ref};
use core_store_waits::lift;
use rpc_machine::Reference;
use rpc_msg::RefId;

/// Leads a reference back to where it led before it was advanced, and lifts the embargo under which it was put, for which
/// no call waits yet. Takes no memory, but one of the slack.
pub fn lead_back(store: &mut Store, id: RefId, from: Reference)
    requires sound { IsSound store.old }
    requires slack { 0 < store.old.slack }
    requires given { id.0 < store.old.next_ref }
    requires made { from.made < number_limit }
    requires none_taken { store.old.waits.taken ≡ [] }
    ensures back { (s : State) → map.get s.refs id.0 ≡ Some from → from.embargo ≡ None → WasLed s id.0 (state_of store.old) → (state_of store.new ≡ s) × (store.new.waits.taken ≡ []) }
    ensures sound { IsSound store.new }
{
    let led = forget_ref(store, id);
    lift_of(store, led);
    put_back_ref(store, id, from);
}

// The embargo of a reference that was taken out is lifted, if it has one.
fn lift_of(store: &mut Store, led: Option<Reference>)
    requires sound { IsSound store.old }
    requires none_taken { store.old.waits.taken ≡ [] }
    ensures lifted { LiftsOf (state_of store.old) led (state_of store.new) store.new.waits.taken }
    ensures refs { (state_of store.new).refs ≡ (state_of store.old).refs }
    ensures next { store.new.next_ref ≡ store.old.next_ref }
    ensures left { store.new.slack ≡ store.old.slack }
    ensures sound { IsSound store.new }
{
    let Some(reference) = led else {
        return;
    };
    let Some(embargo) = reference.embargo else {
        return;
    };
    let _ = lift(store, embargo);
}
