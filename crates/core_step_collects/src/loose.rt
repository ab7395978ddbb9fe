ghost use Rattle.std.specs.Prelude.{◌≡◌, [], MatchBool};
ghost use Rattle.std.specs.FinMap as map;
ghost use Rattle.rpc_machine.specs.Collecting.{IsLoosePromise, IsLooseOutcome, IsLooseImport, CallerIsDone};
ghost use Rattle.core_refcounts.specs.Names.{Counts};
ghost use Rattle.core_store.specs.Holding.{state_of, all_named, IsTold};

use core_store::Store;
use rpc_machine::Caller;
use rpc_msg::ExportId;

/// Whether there is a settled promise with that key that no place names. Takes no memory, as do the next two. No call may
/// be taken out to be routed.
pub(crate) fn is_loose_promise(store: &Store, key: u64) -> bool
    requires counted { Counts store.now.names (all_named store.now) }
    requires none_taken { store.now.waits.taken ≡ [] }
    ensures { MatchBool result (IsLoosePromise (state_of store.now) key (map.get (state_of store.now).promises key)) (¬ (IsLoosePromise (state_of store.now) key (map.get (state_of store.now).promises key))) }
{
    let Some(_) = store.waits.promise_link(key) else {
        return false;
    };
    store.names.of_promise(key) == 0
}

/// Whether there is a known outcome with that key that nobody waits for, whose caller is done and of which no place names
/// a field.
pub(crate) fn is_loose_outcome(store: &Store, key: u64) -> bool
    requires counted { Counts store.now.names (all_named store.now) }
    requires none_taken { store.now.waits.taken ≡ [] }
    ensures { MatchBool result (IsLooseOutcome (state_of store.now) key (map.get (state_of store.now).outcomes key)) (¬ (IsLooseOutcome (state_of store.now) key (map.get (state_of store.now).outcomes key))) }
{
    is_told(store, key) && store.names.of_outcome(key) == 0
}

/// Whether the outcome with that key is known, nothing waits for it, and nobody is still to be told. Takes no memory.
pub fn is_told(store: &Store, key: u64) -> bool
    ensures { MatchBool result (IsTold (state_of store.now) key (map.get (state_of store.now).outcomes key)) (¬ (IsTold (state_of store.now) key (map.get (state_of store.now).outcomes key))) }
{
    let Some(caller) = store.waits.caller(key) else {
        return false;
    };
    let Some(_) = store.waits.value(key) else {
        return false;
    };
    if store.waits.is_awaited(key) {
        return false;
    }
    caller_is_done(store, key, caller)
}

// Whether nobody is still to be told of the outcome.
fn caller_is_done(store: &Store, key: u64, caller: Caller) -> bool
    ensures { MatchBool result (CallerIsDone (state_of store.now) key caller) (¬ (CallerIsDone (state_of store.now) key caller)) }
{
    match caller {
        Caller::Application(call) => store.calls.get(call.0).is_none(),
        Caller::Peer(id) => {
            let Some(answer) = store.answers.get(id.0) else {
                return true;
            };
            answer.outcome != key
        }
    }
}

/// Whether there is an import with that id that no place names.
pub(crate) fn is_loose_import(store: &Store, id: ExportId) -> bool
    requires counted { Counts store.now.names (all_named store.now) }
    requires none_taken { store.now.waits.taken ≡ [] }
    ensures { MatchBool result (IsLooseImport (state_of store.now) id.0 (map.get (state_of store.now).imports id.0)) (¬ (IsLooseImport (state_of store.now) id.0 (map.get (state_of store.now).imports id.0))) }
{
    let Some(_) = store.imports.get(id.0) else {
        return false;
    };
    store.names.of_import(id) == 0
}
