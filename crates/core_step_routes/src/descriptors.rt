ghost use Rattle.std.specs.Prelude.{◌≡◌, ◌+◌, ◌-◌, ◌≤◌, ◌<◌, ◌++◌, ◌∷◌, [], ℕ, false, length, vec_len, vec_capacity, option_to_list, Option, IsOk, IfOk, IfErr, OnOk, OnErr};
ghost use Rattle.rpc_msg.specs.Messages.{given};
ghost use Rattle.rpc_machine.specs.declared.node.Node.{Node};
ghost use Rattle.rpc_machine.specs.Descriptors.{Describes, DescribesAll};
ghost use Rattle.rpc_machine.specs.Fullness.{exports_lack_room, going_out};
ghost use Rattle.rpc_machine.specs.Nodes.{settle};
ghost use Rattle.rpc_machine.specs.Progress.{export_ids};
ghost use Rattle.vat_tables.specs.Exports.{IsOneEach};
ghost use Rattle.core_store.specs.Holding.{state_of, IsSound};
ghost use Rattle.core_store.specs.Noted.{noted_of};
ghost use Rattle.core_step_routes.specs.Fitting.{AreCounts, HasExportRoom};

use core_store::Store;
use rpc_machine::Node;
use rpc_msg::{Descriptor, ExportId};
use vat_tables::TableFault;

/// The descriptor of a node, in a message that is to be sent: an object, a promise or a field is exported, or has one more on
/// the count of its export. `Full` if that takes the table of exports or the count past its limit. Takes no memory, but
/// at most one of the slack, and what there is to make the way from the node short.
pub fn describe(store: &mut Store, node: Node) -> Result<Descriptor, TableFault>
    requires sound { IsSound store.old }
    requires slack { 0 < store.old.slack }
    ensures ok { IfOk result (λ said. Describes (state_of store.old) node said (state_of store.new)) }
    ensures full { IfErr result (λ fault. fault ≡ TableFault.Full) }
    ensures fits { (counts : Node → Option ℕ) → AreCounts (state_of store.old) counts → HasExportRoom (state_of store.old) counts (settle (state_of store.old) node) → IsOk result }
    ensures left { (store.old.slack ≤ store.new.slack + 1) × (store.new.slack ≤ store.old.slack) }
    ensures waits { store.new.waits ≡ store.old.waits }
    ensures noted { noted_of store.new.names ≡ noted_of store.old.names }
    ensures sound { IsSound store.new }
{
    // A copy: what is passed by value can't be used again, though its type is `Copy`.
    let from = node;
    core_store::shorten(store, node);
    describe_walked(store, from)
}

// The same, if the way from the node is short.
fn describe_walked(store: &mut Store, node: Node) -> Result<Descriptor, TableFault>
    requires sound { IsSound store.old }
    requires slack { 0 < store.old.slack }
    ensures ok { IfOk result (λ said. Describes (state_of store.old) node said (state_of store.new)) }
    ensures full { IfErr result (λ fault. fault ≡ TableFault.Full) }
    ensures fits { (counts : Node → Option ℕ) → AreCounts (state_of store.old) counts → HasExportRoom (state_of store.old) counts (settle (state_of store.old) node) → IsOk result }
    ensures left { (store.old.slack ≤ store.new.slack + 1) × (store.new.slack ≤ store.old.slack) }
    ensures waits { store.new.waits ≡ store.old.waits }
    ensures noted { noted_of store.new.names ≡ noted_of store.old.names }
    ensures sound { IsSound store.new }
{
    let at = core_store::settle(store, node);
    match at {
        Node::Object(_) => {
            let id = core_store_tables::name_export(store, at)?;
            Ok(Descriptor::SenderHosted(id))
        }
        Node::Promise(_) => {
            let id = core_store_tables::name_export(store, at)?;
            Ok(Descriptor::SenderPromise(id))
        }
        Node::Field(_, _) => {
            let id = core_store_tables::name_export(store, at)?;
            Ok(Descriptor::SenderPromise(id))
        }
        Node::Import(id) => Ok(Descriptor::ReceiverHosted(id)),
        Node::Pipe(question, path) => Ok(Descriptor::ReceiverAnswer(question, path)),
        Node::Broken(_) => Ok(Descriptor::None),
    }
}

// No two exports stand for one node: what the table says of itself.
fn have_one_each(store: &Store)
    ensures { IsOneEach store.now.exports.entries }
{
    let _ = store.exports.get(ExportId(0));
}

/// The descriptors of these nodes, made one after the other, and the ids of the exports that they add one to, put into
/// two lists, which are empty and have room for one of each node. `Full` if a limit of the exports is passed, and only
/// then; some may have one more on their count then. Takes no memory, but at most one of the slack for each node.
#[inline(always)]
pub fn describe_all_kept(
    store: &mut Store,
    nodes: &[Node],
    said: &mut Vec<Descriptor>,
    ids: &mut Vec<ExportId>,
) -> Result<(), TableFault>
    requires sound { IsSound store.old }
    requires slack { length nodes.now ≤ store.old.slack }
    requires none_said { said.old.items ≡ [] }
    requires no_ids { ids.old.items ≡ [] }
    requires room { length nodes.now ≤ vec_capacity said.old }
    requires id_room { length nodes.now ≤ vec_capacity ids.old }
    ensures ok { OnOk result (DescribesAll (state_of store.old) nodes.now said.new.items (state_of store.new)) }
    ensures ids { OnOk result (ids.new.items ≡ export_ids (given said.new.items)) }
    ensures full { IfErr result (λ fault. fault ≡ TableFault.Full) }
    ensures fits { exports_lack_room (state_of store.old) (going_out (state_of store.old) nodes.now) ≡ false → IsOk result }
    ensures left { (store.old.slack ≤ store.new.slack + length nodes.now) × (store.new.slack ≤ store.old.slack) }
    ensures waits { store.new.waits ≡ store.old.waits }
    ensures noted { noted_of store.new.names ≡ noted_of store.old.names }
    ensures sound { IsSound store.new }
{
    if nodes.is_empty() {
        return Ok(());
    }
    describe_each(store, nodes, said, ids)
}

// The same, node by node.
fn describe_each(
    store: &mut Store,
    nodes: &[Node],
    said: &mut Vec<Descriptor>,
    ids: &mut Vec<ExportId>,
) -> Result<(), TableFault>
    requires sound { IsSound store.old }
    requires slack { length nodes.now ≤ store.old.slack }
    requires none_said { said.old.items ≡ [] }
    requires no_ids { ids.old.items ≡ [] }
    requires room { length nodes.now ≤ vec_capacity said.old }
    requires id_room { length nodes.now ≤ vec_capacity ids.old }
    ensures ok { OnOk result (DescribesAll (state_of store.old) nodes.now said.new.items (state_of store.new)) }
    ensures ids { OnOk result (ids.new.items ≡ export_ids (given said.new.items)) }
    ensures full { IfErr result (λ fault. fault ≡ TableFault.Full) }
    ensures fits { exports_lack_room (state_of store.old) (going_out (state_of store.old) nodes.now) ≡ false → IsOk result }
    ensures left { (store.old.slack ≤ store.new.slack + length nodes.now) × (store.new.slack ≤ store.old.slack) }
    ensures waits { store.new.waits ≡ store.old.waits }
    ensures noted { noted_of store.new.names ≡ noted_of store.old.names }
    ensures sound { IsSound store.new }
{
    have_one_each(store);
    for node in nodes {
        let one = describe(store, *node)?;
        push_given(ids, &one);
        let Ok(()) = said.push(one) else {
            unreachable!()
        };
    }
    Ok(())
}

fn push_given(ids: &mut Vec<ExportId>, descriptor: &Descriptor)
    requires { vec_len ids.old < vec_capacity ids.old }
    ensures ids { ids.new.items ≡ ids.old.items ++ export_ids (given (descriptor.now ∷ [])) }
    ensures len { vec_len ids.new ≤ vec_len ids.old + 1 }
    ensures capacity { vec_capacity ids.old ≤ vec_capacity ids.new }
{
    let Some(id) = given_id(descriptor) else {
        return;
    };
    let Ok(()) = ids.push(id) else { unreachable!() };
}

fn given_id(descriptor: &Descriptor) -> Option<ExportId>
    ensures { export_ids (given (descriptor.now ∷ [])) ≡ option_to_list result }
{
    match *descriptor {
        Descriptor::SenderHosted(id) => Some(id),
        Descriptor::SenderPromise(id) => Some(id),
        Descriptor::None => None,
        Descriptor::ReceiverHosted(_) => None,
        Descriptor::ReceiverAnswer(_, _) => None,
    }
}
