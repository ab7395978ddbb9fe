ghost use Rattle.std.specs.Prelude.{◌≡◌, ◌-◌, ◌<◌, ◌≤◌, [], ◌∷◌, ◌++◌, cond, Err, IsOk, IfOk, IfErr, OnOk, OnErr, true};
ghost use Rattle.std.specs.FinMap as map;
ghost use Rattle.rpc_machine.specs.Descriptors.{Exported};
ghost use Rattle.rpc_machine.specs.Flags.{lower_by, obey};
ghost use Rattle.rpc_machine.specs.Nodes.{is_promise, is_field};
ghost use Rattle.rpc_machine.specs.Progress.{numbers};
ghost use Rattle.rpc_machine.specs.Settling.{exports_where};
ghost use Rattle.vat_tables.specs.Exports.{IsNameLimit};
ghost use Rattle.core_store.specs.Holding.{state_of, IsSound};
ghost use Rattle.core_store.specs.Noted.{noted_of};

use crate::names::name_if;
use core_store::Store;
use rpc_machine::{Export, Node};
use rpc_msg::{ExportId, Items, Memory};
use std::alloc::Global;
use vat_tables::TableFault;

/// Names a node by the id of its export, which it makes if there is none, and adds one to the export's count. `Full` if
/// that takes the table or the count past its limit, and only then; the state is unchanged then. Takes no memory, but
/// one of the slack.
pub fn name_export(store: &mut Store, node: Node) -> Result<ExportId, TableFault>
    requires sound { IsSound store.old }
    requires slack { 0 < store.old.slack }
    ensures named { IfOk result (λ e. Exported (state_of store.old) node e.0 (state_of store.new)) }
    ensures left { OnOk result (store.new.slack ≡ store.old.slack - 1) }
    ensures waits { store.new.waits ≡ store.old.waits }
    ensures noted { noted_of store.new.names ≡ noted_of store.old.names }
    ensures sound { IsSound store.new }
    ensures at_limit { IsNameLimit (state_of store.old).exports node → result ≡ Err TableFault.Full }
    ensures full { IfErr result (λ fault. (fault ≡ TableFault.Full) × IsNameLimit (state_of store.old).exports node) }
    ensures same { OnErr result (state_of store.new ≡ state_of store.old) }
    ensures still { OnErr result (store.new.slack ≡ store.old.slack) }
{
    let before = store.exports.len();
    let id = match store.exports.name(&node) {
        Ok(id) => id,
        Err(fault) => return Err(fault),
    };
    let grew = before < store.exports.len();
    name_if(&mut store.names, grew, node);
    store.added += 1;
    store.slack -= 1;
    Ok(id)
}

/// Takes n off the count of an export, if it is there; at zero it goes. Takes no memory.
pub fn lower(store: &mut Store, e: ExportId, n: u32)
    requires { IsSound store.old }
    ensures state { state_of store.new ≡ record (state_of store.old) { exports = lower_by (state_of store.old).exports e.0 n } }
    ensures left { store.new.slack ≡ store.old.slack }
    ensures waits { store.new.waits ≡ store.old.waits }
    ensures sound { IsSound store.new }
{
    let Some(export) = store.exports.get(e) else {
        return;
    };
    let Export { node, count } = *export;
    if count <= n {
        store.exports.close(e);
        store.names.sub(node);
        return;
    }
    if n == 0 {
        return;
    }
    let Ok(_) = store.exports.release(e, n) else {
        unreachable!()
    };
}

/// Obeys a release flag: if it is true, one is taken off the count of each of these exports. Takes no memory.
pub fn obey(store: &mut Store, flag: bool, ids: &[ExportId])
    requires { IsSound store.old }
    ensures state { state_of store.new ≡ obey (state_of store.old) flag (numbers ids.now) }
    ensures left { store.new.slack ≡ store.old.slack }
    ensures waits { store.new.waits ≡ store.old.waits }
    ensures sound { IsSound store.new }
{
    if flag {
        lower_each(store, ids);
    }
}

fn lower_each(store: &mut Store, ids: &[ExportId])
    requires { IsSound store.old }
    ensures state { state_of store.new ≡ obey (state_of store.old) true (numbers ids.now) }
    ensures left { store.new.slack ≡ store.old.slack }
    ensures waits { store.new.waits ≡ store.old.waits }
    ensures sound { IsSound store.new }
{
    for id in ids {
        lower(store, *id, 1);
    }
}

/// The export of the promise, if it has one, with its node: the exports of it, by rising id; in memory of its own. Constant
/// work.
pub fn exports_of_promise(
    store: &Store,
    p: u64,
    alloc: Global,
) -> Result<Items<(u32, Node)>, Memory>
    ensures { IfOk result (λ list. list ≡ exports_where (is_promise p) (map.entries (state_of store.now).exports)) }
{
    let node = Node::Promise(p);
    let Some(id) = store.exports.find(&node) else {
        return Ok(Items::new(alloc));
    };
    match Items::one(alloc, (id.0, node)) {
        Ok(found) => Ok(found),
        Err(_) => Err(Memory),
    }
}

/// The exports of fields of the outcome, with their nodes, by rising id; in memory of their own. Looks at each export, but
/// at none if there are no such.
pub fn exports_of_field(store: &Store, o: u64, alloc: Global) -> Result<Items<(u32, Node)>, Memory>
    ensures { IfOk result (λ list. list ≡ exports_where (is_field o) (map.entries (state_of store.now).exports)) }
{
    if store.exports.fields_of(o) == 0 {
        return Ok(Items::new(alloc));
    }
    find_fields(store, o, alloc)
}

fn find_fields(store: &Store, o: u64, alloc: Global) -> Result<Items<(u32, Node)>, Memory>
    ensures { IfOk result (λ list. list ≡ exports_where (is_field o) (map.entries (state_of store.now).exports)) }
{
    let mut found = Items::new(alloc);
    for (id, export) in store.exports.iter() {
        push_if(
            &mut found,
            is_field(&export.node, o),
            id as u32,
            export.node,
        )?;
    }
    Ok(found)
}

fn push_if(found: &mut Items<(u32, Node)>, chosen: bool, id: u32, node: Node) -> Result<(), Memory>
    ensures { OnOk result (found.new ≡ found.old ++ cond chosen ((id, node) ∷ []) []) }
{
    if !chosen {
        return Ok(());
    }
    match found.push((id, node)) {
        Ok(()) => Ok(()),
        Err(_) => Err(Memory),
    }
}

fn is_field(node: &Node, o: u64) -> bool
    ensures { result ≡ is_field o node.now }
{
    match *node {
        Node::Field(key, _) => key == o,
        Node::Object(_) => false,
        Node::Promise(_) => false,
        Node::Import(_) => false,
        Node::Pipe(_, _) => false,
        Node::Broken(_) => false,
    }
}
