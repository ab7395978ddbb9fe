ghost use Rattle.std.specs.Prelude.{◌≡◌, ◌≢◌, ◌+◌, ◌-◌, ◌<◌, length, [], None, Err, IsOk, IsSome, IfOk, OnOk, OnErr};
ghost use Rattle.std.specs.FinMap as map;
ghost use Rattle.rpc_machine.specs.Commands.{WaitsForEmbargo};
ghost use Rattle.rpc_machine.specs.Limits.{held_limit, table_limit};
ghost use Rattle.rpc_machine.specs.Progress.{Progress, with_state};
ghost use Rattle.core_store.specs.Holding.{state_of, IsSound};
ghost use Rattle.core_store.specs.Noted.{noted_of};
ghost use Rattle.core_store_waits.specs.Changes.{Lifts};

use core_store::Store;
use rpc_machine::{Node, WaitingCall};
use rpc_msg::{EmbargoId, Memory, RefId};
use vat_tables::{POOL_LIMIT, TableFault};

/// Puts the calls of a reference that leads to that node under a new embargo, which names the node, and gives its id, which
/// was free. Takes no memory, but one of the slack.
pub fn open_embargo(store: &mut Store, reference: RefId, node: Node) -> EmbargoId
    requires sound { IsSound store.old }
    requires slack { 0 < store.old.slack }
    requires limit { map.len (state_of store.old).embargoes < table_limit }
    ensures free { map.get (state_of store.old).embargoes result.0 ≡ None }
    ensures state { state_of store.new ≡ record (state_of store.old) { embargoes = map.insert (state_of store.old).embargoes result.0 (record { reference = reference; node = node; waiting = [] }) } }
    ensures taken { store.new.waits.taken ≡ store.old.waits.taken }
    ensures left { store.new.slack ≡ store.old.slack - 1 }
    ensures sound { IsSound store.new }
{
    // A copy: what is passed by value can't be used again, though its type is `Copy`.
    let target = node;
    let Ok(id) = store.waits.open_embargo(reference, node) else {
        unreachable!()
    };
    let Ok(()) = store.names.add(target) else {
        unreachable!()
    };
    store.added += 1;
    store.slack -= 1;
    id
}

/// Lets a call wait for the end of an embargo, behind those that wait already; its capabilities are named. Takes no
/// memory, but one of the slack, and one for each capability. `Full` at 65,536 calls, and only then; `Memory` if there
/// is no such embargo. A call that is refused is dropped, and nothing is changed then.
pub fn hold_under(store: &mut Store, id: EmbargoId, call: WaitingCall) -> Result<(), TableFault>
    requires sound { IsSound store.old }
    requires slack { length call.request.caps < store.old.slack }
    ensures ok { OnOk result ((d : Progress) → WaitsForEmbargo (with_state d (state_of store.old)) call id.0 (map.get (state_of store.old).embargoes id.0) (with_state d (state_of store.new))) }
    ensures at_limit { IsSome (map.get (state_of store.old).embargoes id.0) → store.old.waits.held ≡ held_limit → result ≡ Err TableFault.Full }
    ensures full { result ≡ Err TableFault.Full → store.old.waits.held ≡ held_limit }
    ensures never { IsSome (map.get (state_of store.old).embargoes id.0) → store.old.waits.held ≢ held_limit → IsOk result }
    ensures taken { store.new.waits.taken ≡ store.old.waits.taken }
    ensures left { OnOk result (store.new.slack ≡ store.old.slack - (length call.request.caps + 1)) }
    ensures same { OnErr result (store.new ≡ store.old) }
    ensures noted { noted_of store.new.names ≡ noted_of store.old.names }
    ensures sound { IsSound store.new }
{
    let Some(_parts) = store.waits.embargo(id) else {
        return Err(TableFault::Memory);
    };
    if store.waits.held() == POOL_LIMIT {
        return Err(TableFault::Full);
    }
    let count = call.request.caps.len();
    let Ok(()) = store.names.add_all(&call.request.caps) else {
        unreachable!()
    };
    let Ok(()) = store.waits.hold_under(id, call) else {
        unreachable!()
    };
    store.added += count as u64;
    store.slack -= count + 1;
    Ok(())
}

/// Ends an embargo: it goes, its node is named once less, the calls that waited for that are taken out, and its reference
/// and node are handed out. Takes no memory. `Err` if there is no such embargo, or calls that were taken out before are
/// not all handed out; nothing is changed then.
pub fn lift(store: &mut Store, id: EmbargoId) -> Result<(RefId, Node), Memory>
    requires { IsSound store.old }
    ensures ok { IfOk result (λ parts. Lifts (state_of store.old) id.0 parts.0 parts.1 (map.get (state_of store.old).embargoes id.0) (state_of store.new) store.new.waits.taken) }
    ensures handed_out { OnOk result (store.old.waits.taken ≡ []) }
    ensures never { IsSome (map.get (state_of store.old).embargoes id.0) → store.old.waits.taken ≡ [] → IsOk result }
    ensures left { store.new.slack ≡ store.old.slack }
    ensures same { OnErr result (store.new ≡ store.old) }
    ensures sound { IsSound store.new }
{
    let (reference, node) = store.waits.lift(id)?;
    // A copy: what is passed by value can't be used again, though its type is `Copy`.
    let target = node;
    store.names.sub(target);
    Ok((reference, node))
}
