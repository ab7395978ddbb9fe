ghost use Rattle.std.specs.Prelude.{◌≡◌, ◌≤◌, [], length, take, cond, nat_eq, IsTrue};
ghost use Rattle.std.specs.List.{list_all};
ghost use Rattle.std.specs.FinMap as map;
ghost use Rattle.rpc_machine.specs.Flags.{flag_for, give_back, give_each, is_spared, may_lose};
ghost use Rattle.rpc_machine.specs.Lists.{how_many};
ghost use Rattle.rpc_machine.specs.Progress.{numbers};
ghost use Rattle.core_step_collects.specs.Standing.{StandsBefore};
ghost use Rattle.core_store.specs.Holding.{state_of, IsSound};

use crate::runs::{FEW, MANY, sorted_spared};
use core_store::Store;
use core_store_tables::give_one;
use rpc_machine::Level;
use rpc_msg::ExportId;

/// The release flag for descriptors of these ids, while their own place stands: there are some, and all may be given back.
/// A level 0 vat always says true. Takes no memory. No call may be taken out to be routed.
pub fn flag_for(store: &Store, ids: &[ExportId]) -> bool
    requires sound { IsSound store.now }
    requires none_taken { store.now.waits.taken ≡ [] }
    ensures { result ≡ flag_for (state_of store.now) (numbers ids.now) }
{
    match store.level {
        Level::Zero => true,
        Level::One => !ids.is_empty() && all_spared(store, ids),
    }
}

fn all_spared(store: &Store, ids: &[ExportId]) -> bool
    requires sound { IsSound store.now }
    requires none_taken { store.now.waits.taken ≡ [] }
    ensures { result ≡ list_all (is_spared (state_of store.now) (numbers ids.now)) (numbers ids.now) }
{
    if ids.len() > FEW && ids.len() <= MANY {
        return many_spared(store, ids);
    }
    each_spared(store, ids)
}

// Apart, since whoever has the copy among its locals fills it with zeros each time that it is called.
#[cold]
#[inline(never)]
fn many_spared(store: &Store, ids: &[ExportId]) -> bool
    requires sound { IsSound store.now }
    requires none_taken { store.now.waits.taken ≡ [] }
    requires fit { length ids.now ≤ MANY }
    ensures { result ≡ list_all (is_spared (state_of store.now) (numbers ids.now)) (numbers ids.now) }
{
    let mut copied = [0; MANY];
    copy_ids(ids, &mut copied);
    sorted_spared(store, &mut copied[..ids.len()])
}

fn copy_ids(ids: &[ExportId], copied: &mut [u32])
    requires { length ids.now ≤ length copied.old }
    ensures len { length copied.new ≡ length copied.old }
    ensures ids { take (length ids.now) copied.new ≡ numbers ids.now }
{
    for at in 0..ids.len() {
        copied[at] = ids[at].0;
    }
}

fn each_spared(store: &Store, ids: &[ExportId]) -> bool
    requires sound { IsSound store.now }
    requires none_taken { store.now.waits.taken ≡ [] }
    ensures { result ≡ list_all (is_spared (state_of store.now) (numbers ids.now)) (numbers ids.now) }
{
    for at in 0..ids.len() {
        let id = ids[at];
        if stands_before(ids, at, id) {
            continue;
        }
        if !may_lose(store, id, times_given(ids, id)) {
            return false;
        }
    }
    true
}

// Whether the id stands before that place, looked for from there back.
fn stands_before(ids: &[ExportId], place: usize, id: ExportId) -> bool
    requires { place ≤ length ids.now }
    ensures { IsTrue result → StandsBefore ids.now place id }
{
    let mut at = place;
    while at > 0 {
        at -= 1;
        if ids[at].0 == id.0 {
            return true;
        }
    }
    false
}

/// Gives back what the release flag for these ids lets go, and answers the flag. Takes no memory. No call may be taken out
/// to be routed.
pub fn give_back(store: &mut Store, ids: &[ExportId]) -> bool
    requires sound { IsSound store.old }
    requires none_taken { store.old.waits.taken ≡ [] }
    ensures flag { result ≡ flag_for (state_of store.old) (numbers ids.now) }
    ensures state { state_of store.new ≡ give_back (state_of store.old) (numbers ids.now) }
    ensures left { store.new.slack ≡ store.old.slack }
    ensures waits { store.new.waits ≡ store.old.waits }
    ensures sound { IsSound store.new }
{
    let flag = flag_for(store, ids);
    if flag {
        give_each(store, ids);
    }
    flag
}

/// Gives back one of the count of the import of each of these ids; at zero it goes. Takes no memory.
pub fn give_each(store: &mut Store, ids: &[ExportId])
    requires { IsSound store.old }
    ensures state { state_of store.new ≡ record (state_of store.old) { imports = give_each (state_of store.old).imports (numbers ids.now) } }
    ensures left { store.new.slack ≡ store.old.slack }
    ensures waits { store.new.waits ≡ store.old.waits }
    ensures sound { IsSound store.new }
{
    for id in ids {
        give_one(store, *id);
    }
}

/// Whether so many descriptors of the import may be given back: more were received, or no other place names it. Takes no
/// memory. No call may be taken out to be routed.
pub fn may_lose(store: &Store, id: ExportId, given: usize) -> bool
    requires sound { IsSound store.now }
    requires none_taken { store.now.waits.taken ≡ [] }
    ensures { result ≡ may_lose (state_of store.now) id.0 given (map.get (state_of store.now).imports id.0) }
{
    let Some(import) = store.imports.get(id.0) else {
        return false;
    };
    let given = given as u64;
    given < import.count as u64 || store.names.of_import(id) == given
}

/// How often the id is in the list. Takes no memory.
pub fn times_given(ids: &[ExportId], id: ExportId) -> usize
    ensures { result ≡ how_many (nat_eq id.0) (numbers ids.now) }
{
    let mut times = 0;
    for other in ids {
        times += as_number(id.0 == other.0);
    }
    times
}

pub(crate) fn as_number(yes: bool) -> usize
    ensures { result ≡ cond yes 1 0 }
{
    if yes {
        return 1;
    }
    0
}
