ghost use Rattle.std.specs.Prelude.{◌≡◌, ℕ, [], IfSome, IfNone};
ghost use Rattle.std.specs.FinMap as map;
ghost use Rattle.rpc_machine.specs.Collecting.{IsLoosePromise, IsLooseOutcome, IsLooseImport};
ghost use Rattle.core_store.specs.Holding.{state_of, IsSound};
ghost use Rattle.core_store.specs.Noted.{noted_of};

use crate::loose::{is_loose_import, is_loose_outcome, is_loose_promise};
use core_store::Store;
use rpc_msg::ExportId;

/// Finds a settled promise that no place names, if there is one; it stays noted. Noted promises that need not go are noted
/// no more. Takes no memory, as do the next two. No call may be taken out to be routed.
#[inline(always)]
pub fn next_loose_promise(store: &mut Store) -> Option<u64>
    requires sound { IsSound store.old }
    requires none_taken { store.old.waits.taken ≡ [] }
    ensures same { store.new ≡ record store.old { names = store.new.names } }
    ensures some { IfSome result (λ p. IsLoosePromise (state_of store.old) p (map.get (state_of store.old).promises p)) }
    ensures none { IfNone result ((p : ℕ) → ¬ (IsLoosePromise (state_of store.old) p (map.get (state_of store.old).promises p))) }
    ensures rested { IfNone result (noted_of store.new.names ≡ record (noted_of store.old.names) { promises = [] }) }
    ensures sound { IsSound store.new }
{
    while let Some(key) = store.names.take_promise() {
        if is_loose_promise(store, key) {
            let Ok(()) = store.names.note_promise(key) else {
                unreachable!()
            };
            return Some(key);
        }
    }
    None
}

/// Finds a known outcome that nobody waits for, whose caller is done and of which no place names a field.
#[inline(always)]
pub fn next_loose_outcome(store: &mut Store) -> Option<u64>
    requires sound { IsSound store.old }
    requires none_taken { store.old.waits.taken ≡ [] }
    ensures same { store.new ≡ record store.old { names = store.new.names } }
    ensures some { IfSome result (λ o. IsLooseOutcome (state_of store.old) o (map.get (state_of store.old).outcomes o)) }
    ensures none { IfNone result ((o : ℕ) → ¬ (IsLooseOutcome (state_of store.old) o (map.get (state_of store.old).outcomes o))) }
    ensures rested { IfNone result (noted_of store.new.names ≡ record (noted_of store.old.names) { outcomes = [] }) }
    ensures sound { IsSound store.new }
{
    while let Some(key) = store.names.take_outcome() {
        if is_loose_outcome(store, key) {
            let Ok(()) = store.names.note_outcome(key) else {
                unreachable!()
            };
            return Some(key);
        }
    }
    None
}

/// Finds an import that no place names.
#[inline(always)]
pub fn next_loose_import(store: &mut Store) -> Option<ExportId>
    requires sound { IsSound store.old }
    requires none_taken { store.old.waits.taken ≡ [] }
    ensures same { store.new ≡ record store.old { names = store.new.names } }
    ensures some { IfSome result (λ e. IsLooseImport (state_of store.old) e.0 (map.get (state_of store.old).imports e.0)) }
    ensures none { IfNone result ((e : ℕ) → ¬ (IsLooseImport (state_of store.old) e (map.get (state_of store.old).imports e))) }
    ensures rested { IfNone result (noted_of store.new.names ≡ record (noted_of store.old.names) { imports = [] }) }
    ensures sound { IsSound store.new }
{
    while let Some(id) = store.names.take_import() {
        if is_loose_import(store, id) {
            let Ok(()) = store.names.note_import(id) else {
                unreachable!()
            };
            return Some(id);
        }
    }
    None
}
