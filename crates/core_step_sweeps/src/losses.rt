ghost use Rattle.std.specs.Prelude.{◌≡◌, ◌++◌, [], OnOk};
ghost use Rattle.rpc_machine.specs.declared.node.Node.TheVariants as node;
ghost use Rattle.rpc_machine.specs.Places.{named_by_returned, named_by_resolution};
ghost use Rattle.core_refcounts.specs.Names.{named_all};
ghost use Rattle.core_store.specs.Holding.{state_of};
ghost use Rattle.core_step_sweeps.specs.Thinking.{linked, named_by_thing};

use crate::tallies::Tallies;
use crate::thought::{lose_beside, lose_each};
use core_store::Store;
use rpc_machine::{Node, Resolution, Returned, Value};
use rpc_msg::{ExportId, Memory, QuestionId};

// One place less names each node that is named by what this one is of.
pub(crate) fn lose(
    store: &Store,
    less: &mut Tallies,
    pending: &mut Vec<Node>,
    node: &Node,
) -> Result<(), Memory>
    ensures less { OnOk result (less.new ≡ named_all less.old (named_by_thing (state_of store.now) node.now)) }
    ensures pending { OnOk result (pending.new.items ≡ pending.old.items ++ named_by_thing (state_of store.now) node.now) }
{
    match *node {
        Node::Object(_) => Ok(()),
        Node::Promise(key) => lose_link(less, pending, store.waits.promise_link(key)),
        Node::Field(key, _) => lose_outcome(store, less, pending, key),
        Node::Import(id) => lose_import(store, less, pending, id),
        Node::Pipe(id, _) => lose_question(store, less, pending, id),
        Node::Broken(_) => Ok(()),
    }
}

fn lose_link(less: &mut Tallies, pending: &mut Vec<Node>, to: Option<Node>) -> Result<(), Memory>
    ensures less { OnOk result (less.new ≡ named_all less.old (linked to)) }
    ensures pending { OnOk result (pending.new.items ≡ pending.old.items ++ linked to) }
{
    let Some(node) = to else {
        return Ok(());
    };
    lose_each(less, pending, &[node])
}

fn lose_outcome(
    store: &Store,
    less: &mut Tallies,
    pending: &mut Vec<Node>,
    key: u64,
) -> Result<(), Memory>
    ensures less { OnOk result (less.new ≡ named_all less.old (named_by_thing (state_of store.now) (node.Field key []))) }
    ensures pending { OnOk result (pending.new.items ≡ pending.old.items ++ named_by_thing (state_of store.now) (node.Field key [])) }
{
    let Some(value) = store.waits.value(key) else {
        return Ok(());
    };
    match value {
        Value::Results(_, caps) => lose_each(less, pending, caps),
        Value::Exception(_) => Ok(()),
    }
}

fn lose_import(
    store: &Store,
    less: &mut Tallies,
    pending: &mut Vec<Node>,
    id: ExportId,
) -> Result<(), Memory>
    ensures less { OnOk result (less.new ≡ named_all less.old (named_by_thing (state_of store.now) (node.Import id))) }
    ensures pending { OnOk result (pending.new.items ≡ pending.old.items ++ named_by_thing (state_of store.now) (node.Import id)) }
{
    let Some(import) = store.imports.get(id.0) else {
        return Ok(());
    };
    lose_link(less, pending, said(&import.resolution))
}

// Where a Resolve led.
fn said(resolution: &Option<Resolution>) -> Option<Node>
    ensures { linked result ≡ named_by_resolution resolution.now }
{
    match resolution {
        Some(Resolution::To(_, node)) => Some(*node),
        Some(Resolution::Exception(_)) => None,
        None => None,
    }
}

fn lose_question(
    store: &Store,
    less: &mut Tallies,
    pending: &mut Vec<Node>,
    id: QuestionId,
) -> Result<(), Memory>
    ensures less { OnOk result (less.new ≡ named_all less.old (named_by_thing (state_of store.now) (node.Pipe id []))) }
    ensures pending { OnOk result (pending.new.items ≡ pending.old.items ++ named_by_thing (state_of store.now) (node.Pipe id [])) }
{
    let Some(question) = store.questions.get(id) else {
        return Ok(());
    };
    lose_returned(less, pending, &question.returned)
}

fn lose_returned(
    less: &mut Tallies,
    pending: &mut Vec<Node>,
    returned: &Option<Returned>,
) -> Result<(), Memory>
    ensures less { OnOk result (less.new ≡ named_all less.old (named_by_returned returned.now)) }
    ensures pending { OnOk result (pending.new.items ≡ pending.old.items ++ named_by_returned returned.now) }
{
    match returned {
        Some(Returned::Results(_, caps)) => lose_beside(less, pending, caps),
        Some(Returned::Exception(_)) => Ok(()),
        None => Ok(()),
    }
}
