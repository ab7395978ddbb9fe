ghost use Rattle.std.specs.Prelude.{◌≡◌, ◌≢◌, ◌+◌, ◌-◌, ◌<◌, length, [], Err, IfNone, IsOk, OnOk, OnErr, OnSome};
ghost use Rattle.std.specs.FinMap as map;
ghost use Rattle.rpc_machine.specs.declared.calls.Promise.TheVariants as promise;
ghost use Rattle.rpc_machine.specs.Limits.{held_limit};
ghost use Rattle.rpc_machine.specs.Progress.{Progress, with_state};
ghost use Rattle.rpc_machine.specs.Routing.{WaitsForPromise};
ghost use Rattle.rpc_machine.specs.Nodes.{promise_link, is_promise};
ghost use Rattle.rpc_machine.specs.Places.{names};
ghost use Rattle.core_waits.specs.Changes.{IsOpen};
ghost use Rattle.core_store.specs.Holding.{state_of, IsSound};
ghost use Rattle.core_store.specs.Noted.{noted_of};
ghost use Rattle.core_store_waits.specs.Changes.{Fixes};

use core_store::{Store, shorten};
use rpc_machine::{Node, WaitingCall};
use rpc_msg::Memory;
use vat_tables::{POOL_LIMIT, TableFault};

/// Opens a new promise, which names itself, and gives its key, which was free. Takes no memory, but one of the slack.
pub fn open_promise(store: &mut Store) -> u64
    requires sound { IsSound store.old }
    requires slack { 0 < store.old.slack }
    ensures free { map.get (state_of store.old).promises result ≡ None }
    ensures state { state_of store.new ≡ record (state_of store.old) { promises = map.insert (state_of store.old).promises result (promise.Open []) } }
    ensures taken { store.new.waits.taken ≡ store.old.waits.taken }
    ensures left { store.new.slack ≡ store.old.slack - 1 }
    ensures noted { noted_of store.new.names ≡ noted_of store.old.names }
    ensures sound { IsSound store.new }
{
    let Ok(key) = store.waits.open_promise() else {
        unreachable!()
    };
    let Ok(()) = store.names.add(Node::Promise(key)) else {
        unreachable!()
    };
    store.links += 1;
    store.added += 1;
    store.slack -= 1;
    key
}

/// Lets a call wait for an open promise, behind those that wait already; its capabilities are named. Takes no memory,
/// but one of the slack, and one for each capability. `Full` at 65,536 calls, and only then; `Memory` if there is no
/// such open promise. A call that is refused is dropped, and nothing is changed then.
pub fn hold_for_promise(store: &mut Store, key: u64, call: WaitingCall) -> Result<(), TableFault>
    requires sound { IsSound store.old }
    requires slack { length call.request.caps < store.old.slack }
    ensures ok { OnOk result ((d : Progress) → WaitsForPromise (with_state d (state_of store.old)) call key (map.get (state_of store.old).promises key) (with_state d (state_of store.new))) }
    ensures at_limit { IsOpen (map.get (state_of store.old).promises key) → store.old.waits.held ≡ held_limit → result ≡ Err TableFault.Full }
    ensures full { result ≡ Err TableFault.Full → store.old.waits.held ≡ held_limit }
    ensures never { IsOpen (map.get (state_of store.old).promises key) → store.old.waits.held ≢ held_limit → IsOk result }
    ensures taken { store.new.waits.taken ≡ store.old.waits.taken }
    ensures left { OnOk result (store.new.slack ≡ store.old.slack - (length call.request.caps + 1)) }
    ensures same { OnErr result (store.new ≡ store.old) }
    ensures noted { noted_of store.new.names ≡ noted_of store.old.names }
    ensures sound { IsSound store.new }
{
    if !store.waits.has_promise(key) {
        return Err(TableFault::Memory);
    }
    let None = store.waits.promise_link(key) else {
        return Err(TableFault::Memory);
    };
    if store.waits.held() == POOL_LIMIT {
        return Err(TableFault::Full);
    }
    let count = call.request.caps.len();
    let Ok(()) = store.names.add_all(&call.request.caps) else {
        unreachable!()
    };
    let Ok(()) = store.waits.hold_for_promise(key, call) else {
        unreachable!()
    };
    store.added += count as u64;
    store.slack -= count + 1;
    Ok(())
}

/// Settles an open promise: it leads there from now on, so it names that and not itself, and the calls that waited for it
/// are taken out. Takes one of the slack, and no memory that it needs: but if there is memory, the promise leads on
/// from now on at once to where it leads. `Err` if there is no such open promise, or calls that were taken out before
/// are not all handed out; nothing is changed then.
pub fn fix(store: &mut Store, key: u64, to: Node) -> Result<(), Memory>
    requires sound { IsSound store.old }
    requires slack { 0 < store.old.slack }
    ensures ok { OnOk result (Fixes (state_of store.old) key to (map.get (state_of store.old).promises key) (state_of store.new) store.new.waits.taken) }
    ensures handed_out { OnOk result (store.old.waits.taken ≡ []) }
    ensures never { IsOpen (map.get (state_of store.old).promises key) → store.old.waits.taken ≡ [] → IsOk result }
    ensures left { OnOk result (store.new.slack ≡ store.old.slack - 1) }
    ensures same { OnErr result (store.new ≡ store.old) }
    ensures sound { IsSound store.new }
{
    settle_promise(store, key, to)?;
    shorten(store, Node::Promise(key));
    Ok(())
}

// The same, and the promise leads on by its links.
fn settle_promise(store: &mut Store, key: u64, to: Node) -> Result<(), Memory>
    requires sound { IsSound store.old }
    requires slack { 0 < store.old.slack }
    ensures ok { OnOk result (Fixes (state_of store.old) key to (map.get (state_of store.old).promises key) (state_of store.new) store.new.waits.taken) }
    ensures handed_out { OnOk result (store.old.waits.taken ≡ []) }
    ensures never { IsOpen (map.get (state_of store.old).promises key) → store.old.waits.taken ≡ [] → IsOk result }
    ensures left { OnOk result (store.new.slack ≡ store.old.slack - 1) }
    ensures same { OnErr result (store.new ≡ store.old) }
    ensures sound { IsSound store.new }
{
    // A copy: what is passed by value can't be used again, though its type is `Copy`.
    let target = to;
    store.waits.fix(key, to)?;
    let Ok(()) = store.names.add(target) else {
        unreachable!()
    };
    store.names.sub(Node::Promise(key));
    store.added += 1;
    store.slack -= 1;
    Ok(())
}

/// Takes out a settled promise that no place names, if there is one under that key, and says where it led, which is named
/// once less. If there is none, or it is open, nothing is changed. Takes no memory.
pub fn remove_promise(store: &mut Store, key: u64) -> Option<Node>
    requires sound { IsSound store.old }
    requires unnamed { names (state_of store.old) (is_promise key) ≡ 0 }
    ensures value { result ≡ promise_link (map.get (state_of store.old).promises key) }
    ensures state { OnSome result (state_of store.new ≡ record (state_of store.old) { promises = map.remove (state_of store.old).promises key }) }
    ensures same { IfNone result (store.new ≡ store.old) }
    ensures taken { store.new.waits.taken ≡ store.old.waits.taken }
    ensures left { store.new.slack ≡ store.old.slack }
    ensures sound { IsSound store.new }
{
    let to = store.waits.promise_link(key)?;
    // A copy: what is passed by value can't be used again, though its type is `Copy`.
    let target = to;
    store.waits.remove_promise(key);
    store.names.sub(target);
    store.links -= 1;
    Some(to)
}
