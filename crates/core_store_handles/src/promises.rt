ghost use Rattle.std.specs.Prelude.{◌≡◌, ◌+◌, ◌-◌, ◌<◌};
ghost use Rattle.std.specs.FinMap as map;
ghost use Rattle.rpc_machine.specs.Limits.{number_limit};
ghost use Rattle.core_store.specs.Holding.{state_of, IsSound};

use core_store::Store;
use rpc_msg::PromiseId;

/// Gives the promise with that key a number, by which the application settles it. Takes no memory, but one of the
/// slack.
pub fn number_promise(store: &mut Store, key: u64) -> PromiseId
    requires sound { IsSound store.old }
    requires slack { 0 < store.old.slack }
    requires number { store.old.next_promise + 1 < number_limit }
    ensures value { result ≡ record { 0 = store.old.next_promise } }
    ensures state { state_of store.new ≡ record (state_of store.old) { unsettled = map.insert (state_of store.old).unsettled store.old.next_promise key; next_promise = store.old.next_promise + 1 } }
    ensures left { store.new.slack ≡ store.old.slack - 1 }
    ensures waits { store.new.waits ≡ store.old.waits }
    ensures sound { IsSound store.new }
{
    let number = store.next_promise;
    let Ok(()) = store.unsettled.add(number, key) else {
        unreachable!()
    };
    store.next_promise = number + 1;
    store.added += 1;
    store.slack -= 1;
    PromiseId(number)
}

/// Takes out the number of a promise, if it is there, and gives the promise's key. Takes no memory.
pub fn settle_number(store: &mut Store, id: PromiseId) -> Option<u64>
    requires { IsSound store.old }
    ensures value { result ≡ map.get (state_of store.old).unsettled id.0 }
    ensures state { state_of store.new ≡ record (state_of store.old) { unsettled = map.remove (state_of store.old).unsettled id.0 } }
    ensures left { store.new.slack ≡ store.old.slack }
    ensures waits { store.new.waits ≡ store.old.waits }
    ensures sound { IsSound store.new }
{
    store.unsettled.remove(id.0)
}
