ghost use Rattle.std.specs.Prelude.{◌≡◌, []};
ghost use Rattle.rpc_machine.specs.Down.{fallen};
ghost use Rattle.core_store.specs.Holding.{state_of, IsSound};

use crate::store::Store;
use std::alloc::Global;

/// Takes the vat down with that number: all that it held goes. Takes no memory.
pub fn fall(store: &mut Store, number: u16, alloc: Global)
    ensures state { state_of store.new ≡ fallen (state_of store.old) number }
    ensures none_taken { store.new.waits.taken ≡ [] }
    ensures sound { IsSound store.new }
{
    *store = Store::new(store.vat, store.level, store.bootstrap, alloc);
    store.down = Some(number);
}
