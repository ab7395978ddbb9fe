ghost use Rattle.std.specs.Prelude.{◌≡◌};
ghost use Rattle.core_store.specs.Holding.{state_of, IsSound};
ghost use Rattle.core_store_waits.specs.Changes.{TakesNext};

use core_store::Store;
use rpc_machine::HeldCall;

/// Hands out the first of the calls that were taken out; its capabilities are named once less. Takes no memory.
pub fn next_taken(store: &mut Store) -> Option<HeldCall>
    requires { IsSound store.old }
    ensures value { TakesNext store.old.waits.taken result store.new.waits.taken }
    ensures state { state_of store.new ≡ state_of store.old }
    ensures left { store.new.slack ≡ store.old.slack }
    ensures sound { IsSound store.new }
{
    let held = store.waits.next_taken()?;
    store.names.sub_all(&held.call.request.caps);
    Some(held)
}
