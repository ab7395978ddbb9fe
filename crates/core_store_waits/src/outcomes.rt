ghost use Rattle.std.specs.Prelude.{◌≡◌, ◌≢◌, ◌+◌, ◌-◌, ◌<◌, length, [], None, Err, IsOk, IsSome, OnOk, OnErr};
ghost use Rattle.std.specs.FinMap as map;
ghost use Rattle.rpc_machine.specs.Commands.{with_outcome};
ghost use Rattle.rpc_machine.specs.Limits.{held_limit};
ghost use Rattle.rpc_machine.specs.Nodes.{is_field};
ghost use Rattle.rpc_machine.specs.Places.{names};
ghost use Rattle.rpc_machine.specs.Progress.{Progress, with_state, caps_of};
ghost use Rattle.rpc_machine.specs.Routing.{WaitsForField};
ghost use Rattle.core_waits.specs.Changes.{HasNoneWaiting, outcome_parts};
ghost use Rattle.core_refcounts.specs.Names.{named_all};
ghost use Rattle.core_store.specs.Holding.{state_of, IsSound};
ghost use Rattle.core_store.specs.Noted.{noted_of};
ghost use Rattle.core_store_waits.specs.Changes.{IsUnknown, Knows, TakesHeld};
ghost use Rattle.core_store_waits.specs.Noting.{noted_unnamed};

use crate::names::{caps_if_known, caps_of, note_unnamed};
use core_store::{Store, shorten};
use rpc_machine::{Caller, Node, Value, WaitingCall};
use rpc_msg::{Memory, Path};
use vat_tables::{POOL_LIMIT, TableFault};

/// Opens an outcome that is not known yet, of which that caller is to be told, and gives its key, which was free. Takes no
/// memory, but one of the slack.
pub fn new_outcome(store: &mut Store, caller: Caller) -> u64
    requires sound { IsSound store.old }
    requires slack { 0 < store.old.slack }
    ensures free { map.get (state_of store.old).outcomes result ≡ None }
    ensures state { state_of store.new ≡ with_outcome (state_of store.old) result caller }
    ensures taken { store.new.waits.taken ≡ store.old.waits.taken }
    ensures left { store.new.slack ≡ store.old.slack - 1 }
    ensures noted { noted_of store.new.names ≡ noted_of store.old.names }
    ensures sound { IsSound store.new }
{
    let Ok(key) = store.waits.new_outcome(caller) else {
        unreachable!()
    };
    store.slack -= 1;
    key
}

/// Lets a call wait for what will stand at a path of an outcome, behind those that wait already; its capabilities are
/// named. Takes no memory, but one of the slack, and one for each capability. `Full` at 65,536 calls, and only then;
/// `Memory` if there is no such outcome. A call that is refused is dropped, and nothing is changed then.
pub fn hold_for_field(
    store: &mut Store,
    key: u64,
    path: Path,
    call: WaitingCall,
) -> Result<(), TableFault>
    requires sound { IsSound store.old }
    requires slack { length call.request.caps < store.old.slack }
    ensures ok { OnOk result ((d : Progress) → WaitsForField (with_state d (state_of store.old)) call key path (map.get (state_of store.old).outcomes key) (with_state d (state_of store.new))) }
    ensures at_limit { IsSome (map.get (state_of store.old).outcomes key) → store.old.waits.held ≡ held_limit → result ≡ Err TableFault.Full }
    ensures full { result ≡ Err TableFault.Full → store.old.waits.held ≡ held_limit }
    ensures never { IsSome (map.get (state_of store.old).outcomes key) → store.old.waits.held ≢ held_limit → IsOk result }
    ensures taken { store.new.waits.taken ≡ store.old.waits.taken }
    ensures left { OnOk result (store.new.slack ≡ store.old.slack - (length call.request.caps + 1)) }
    ensures same { OnErr result (store.new ≡ store.old) }
    ensures noted { noted_of store.new.names ≡ noted_of store.old.names }
    ensures sound { IsSound store.new }
{
    let Some(_caller) = store.waits.caller(key) else {
        return Err(TableFault::Memory);
    };
    if store.waits.held() == POOL_LIMIT {
        return Err(TableFault::Full);
    }
    let count = call.request.caps.len();
    let Ok(()) = store.names.add_all(&call.request.caps) else {
        unreachable!()
    };
    let Ok(()) = store.waits.hold_for_field(key, path, call) else {
        unreachable!()
    };
    store.added += count as u64;
    store.slack -= count + 1;
    Ok(())
}

/// Notes what an outcome is that was not known before; its capabilities are named. If no field of it is named, it may
/// have to go, and is noted. Takes one of the slack, and one for each capability, and no memory that it needs: but if
/// there is memory, each capability leads on from now on at once to where it leads. `Err` if there is no such outcome,
/// or it is known; nothing is changed then.
pub fn know(store: &mut Store, key: u64, value: Value) -> Result<(), Memory>
    requires sound { IsSound store.old }
    requires slack { length (caps_of value) < store.old.slack }
    ensures ok { OnOk result (Knows (state_of store.old) key value (map.get (state_of store.old).outcomes key) (state_of store.new)) }
    ensures never { IsUnknown (map.get (state_of store.old).outcomes key) → IsOk result }
    ensures taken { store.new.waits.taken ≡ store.old.waits.taken }
    ensures left { OnOk result (store.new.slack ≡ store.old.slack - (length (caps_of value) + 1)) }
    ensures noted { OnOk result (noted_of store.new.names ≡ noted_of (noted_unnamed (named_all store.old.names (caps_of value)) key)) }
    ensures same { OnErr result (store.new ≡ store.old) }
    ensures sound { IsSound store.new }
{
    let count = caps_of(&value).len();
    know_value(store, key, value)?;
    shorten_caps(store, key, count);
    Ok(())
}

// The same, and each capability leads on by its links.
fn know_value(store: &mut Store, key: u64, value: Value) -> Result<(), Memory>
    requires sound { IsSound store.old }
    requires slack { length (caps_of value) < store.old.slack }
    ensures ok { OnOk result (Knows (state_of store.old) key value (map.get (state_of store.old).outcomes key) (state_of store.new)) }
    ensures never { IsUnknown (map.get (state_of store.old).outcomes key) → IsOk result }
    ensures taken { store.new.waits.taken ≡ store.old.waits.taken }
    ensures left { OnOk result (store.new.slack ≡ store.old.slack - (length (caps_of value) + 1)) }
    ensures noted { OnOk result (noted_of store.new.names ≡ noted_of (noted_unnamed (named_all store.old.names (caps_of value)) key)) }
    ensures same { OnErr result (store.new ≡ store.old) }
    ensures sound { IsSound store.new }
{
    let Some(_caller) = store.waits.caller(key) else {
        return Err(Memory);
    };
    let None = store.waits.value(key) else {
        return Err(Memory);
    };
    let count = caps_of(&value).len();
    let Ok(()) = store.names.add_all(caps_of(&value)) else {
        unreachable!()
    };
    let Ok(()) = store.waits.know(key, value) else {
        unreachable!()
    };
    note_unnamed(&mut store.names, key);
    store.links += count as u64;
    store.added += count as u64;
    store.slack -= count + 1;
    Ok(())
}

// Has each capability of an outcome lead at once to where it leads.
fn shorten_caps(store: &mut Store, key: u64, count: usize)
    requires { IsSound store.old }
    ensures { store.new ≡ store.old }
{
    for index in 0..count {
        let Some(node) = cap_of(store, key, index) else {
            return;
        };
        shorten(store, node);
    }
}

// A capability of a known outcome.
fn cap_of(store: &Store, key: u64, index: usize) -> Option<Node> {
    let caps = caps_of(store.waits.value(key)?);
    Some(*caps.get(index)?)
}

/// Takes out the calls that wait for an outcome. If no field of it is named, it may have to go, and is noted. Takes no
/// memory, but one of the slack. `Err` if there is no such outcome, or calls that were taken out before are not all
/// handed out; nothing is changed then.
pub fn take_held(store: &mut Store, key: u64) -> Result<(), Memory>
    requires sound { IsSound store.old }
    requires slack { 0 < store.old.slack }
    ensures ok { OnOk result (TakesHeld (state_of store.old) key (map.get (state_of store.old).outcomes key) (state_of store.new) store.new.waits.taken) }
    ensures handed_out { OnOk result (store.old.waits.taken ≡ []) }
    ensures never { IsSome (map.get (state_of store.old).outcomes key) → store.old.waits.taken ≡ [] → IsOk result }
    ensures left { OnOk result (store.new.slack ≡ store.old.slack - 1) }
    ensures same { OnErr result (store.new ≡ store.old) }
    ensures sound { IsSound store.new }
{
    store.waits.take_held(key)?;
    note_unnamed(&mut store.names, key);
    store.slack -= 1;
    Ok(())
}

/// Takes out the outcome with that key, if there is one, for which no call may wait, and of which no place may name a field,
/// and says whose it was and what. Its capabilities are named once less. Takes no memory.
pub fn remove_outcome(store: &mut Store, key: u64) -> Option<(Caller, Option<Value>)>
    requires sound { IsSound store.old }
    requires none_waiting { HasNoneWaiting (map.get (state_of store.old).outcomes key) }
    requires unnamed { names (state_of store.old) (is_field key) ≡ 0 }
    ensures value { result ≡ outcome_parts (map.get (state_of store.old).outcomes key) }
    ensures state { state_of store.new ≡ record (state_of store.old) { outcomes = map.remove (state_of store.old).outcomes key } }
    ensures taken { store.new.waits.taken ≡ store.old.waits.taken }
    ensures left { store.new.slack ≡ store.old.slack }
    ensures sound { IsSound store.new }
{
    let (caller, value) = store.waits.remove_outcome(key)?;
    let caps = caps_if_known(&value);
    store.names.sub_all(caps);
    store.links -= caps.len() as u64;
    Some((caller, value))
}
