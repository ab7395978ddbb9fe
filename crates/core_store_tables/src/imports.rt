ghost use Rattle.std.specs.Prelude.{◌≡◌, ◌-◌, ◌<◌, ◌≤◌, None, Err, IsOk, OnOk, OnErr};
ghost use Rattle.std.specs.FinMap as map;
ghost use Rattle.rpc_machine.specs.Descriptors.{import_one};
ghost use Rattle.rpc_machine.specs.Flags.{give_one};
ghost use Rattle.rpc_machine.specs.Messages.{resolve_import};
ghost use Rattle.core_store.specs.Holding.{state_of, IsSound};
ghost use Rattle.core_store_tables.specs.Peer.{IsReceiveLimit, whole_count};

use crate::names::{name_resolution, note_import, unname_resolution};
use core_store::Store;
use rpc_machine::{Import, Resolution, SenderKind};
use rpc_msg::ExportId;
use std::mem;
use vat_tables::{TABLE_LIMIT, TableFault};

/// Receives an export of the peer once more; the first time it becomes an import, and is noted if nothing names it yet.
/// `Full` if that takes the table or the count past its limit, and only then; nothing is changed then. Takes no memory,
/// but one of the slack.
pub fn receive(store: &mut Store, e: ExportId, kind: SenderKind) -> Result<(), TableFault>
    requires sound { IsSound store.old }
    requires slack { 0 < store.old.slack }
    ensures ok { OnOk result (state_of store.new ≡ import_one (state_of store.old) kind e.0) }
    ensures left { OnOk result (store.new.slack ≡ store.old.slack - 1) }
    ensures waits { store.new.waits ≡ store.old.waits }
    ensures sound { IsSound store.new }
    ensures at_limit { IsReceiveLimit (state_of store.old) (map.get (state_of store.old).imports e.0) → result ≡ Err TableFault.Full }
    ensures below { ¬ (IsReceiveLimit (state_of store.old) (map.get (state_of store.old).imports e.0)) → IsOk result }
    ensures same { OnErr result (store.new ≡ store.old) }
{
    let Some(import) = store.imports.get(e.0) else {
        return receive_first(store, e, kind);
    };
    let Some(count) = import.count.checked_add(1) else {
        return Err(TableFault::Full);
    };
    let Some(import) = store.imports.get_mut(e.0) else {
        unreachable!()
    };
    import.count = count;
    store.slack -= 1;
    Ok(())
}

fn receive_first(store: &mut Store, e: ExportId, kind: SenderKind) -> Result<(), TableFault>
    requires sound { IsSound store.old }
    requires slack { 0 < store.old.slack }
    requires new { map.get (state_of store.old).imports e.0 ≡ None }
    ensures ok { OnOk result (state_of store.new ≡ import_one (state_of store.old) kind e.0) }
    ensures left { OnOk result (store.new.slack ≡ store.old.slack - 1) }
    ensures waits { store.new.waits ≡ store.old.waits }
    ensures sound { IsSound store.new }
    ensures at_limit { map.len (state_of store.old).imports ≡ TABLE_LIMIT → result ≡ Err TableFault.Full }
    ensures below { ¬ (map.len (state_of store.old).imports ≡ TABLE_LIMIT) → IsOk result }
    ensures same { OnErr result (store.new ≡ store.old) }
{
    if store.imports.len() == TABLE_LIMIT {
        return Err(TableFault::Full);
    }
    note_import(&mut store.names, e);
    let import = Import {
        kind,
        count: 1,
        resolution: None,
    };
    let Ok(()) = store.imports.add(e.0, import) else {
        unreachable!()
    };
    store.added += 1;
    store.slack -= 1;
    Ok(())
}

/// Gives back one of an import's count, if it is there; at zero it goes, with what its Resolve said. Takes no memory.
pub fn give_one(store: &mut Store, e: ExportId)
    requires { IsSound store.old }
    ensures state { state_of store.new ≡ record (state_of store.old) { imports = give_one (state_of store.old).imports e.0 (map.get (state_of store.old).imports e.0) } }
    ensures left { store.new.slack ≡ store.old.slack }
    ensures waits { store.new.waits ≡ store.old.waits }
    ensures sound { IsSound store.new }
{
    let Some(import) = store.imports.get(e.0) else {
        return;
    };
    if import.count <= 1 {
        take_import(store, e);
        return;
    }
    let Some(import) = store.imports.get_mut(e.0) else {
        unreachable!()
    };
    import.count -= 1;
}

/// Keeps what a Resolve said of an import, in the place of what was said before, if the import is there. Takes no
/// memory, but one of the slack.
pub fn set_resolution(store: &mut Store, e: ExportId, said: Resolution)
    requires sound { IsSound store.old }
    requires slack { 0 < store.old.slack }
    ensures state { state_of store.new ≡ resolve_import (state_of store.old) e.0 said (map.get (state_of store.old).imports e.0) }
    ensures left { store.new.slack ≡ store.old.slack - 1 }
    ensures waits { store.new.waits ≡ store.old.waits }
    ensures sound { IsSound store.new }
{
    store.slack -= 1;
    store.added += 1;
    let Some(_) = store.imports.get(e.0) else {
        return;
    };
    name_resolution(&mut store.names, &said);
    let Some(import) = store.imports.get_mut(e.0) else {
        unreachable!()
    };
    let before = mem::replace(&mut import.resolution, Some(said));
    unname_resolution(&mut store.names, &before);
}

/// Takes out an import, if it is there, with what its Resolve said, and gives its whole count. Takes no memory.
pub fn take_import(store: &mut Store, e: ExportId) -> Option<u32>
    requires { IsSound store.old }
    ensures value { result ≡ whole_count (map.get (state_of store.old).imports e.0) }
    ensures state { state_of store.new ≡ record (state_of store.old) { imports = map.remove (state_of store.old).imports e.0 } }
    ensures left { store.new.slack ≡ store.old.slack }
    ensures waits { store.new.waits ≡ store.old.waits }
    ensures sound { IsSound store.new }
{
    let import = store.imports.close(e.0)?;
    unname_resolution(&mut store.names, &import.resolution);
    Some(import.count)
}
