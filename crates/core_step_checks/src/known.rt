ghost use Rattle.std.specs.Prelude.{◌≡◌, ◌↔◌, IsTrue, true};
ghost use Rattle.rpc_machine.specs.Nodes.{settle, is_wire, is_same_node};
ghost use Rattle.rpc_machine.specs.Advancing.{known_of_wire, known_by, known_cap, wire_target};
ghost use Rattle.rpc_machine.specs.Payloads.{cap_at};
ghost use Rattle.rpc_machine.specs.declared.node.Node.TheVariants as node;
ghost use Rattle.core_store.specs.Holding.{state_of, IsSound};
ghost use Rattle.core_step_checks.specs.Wires.{as_known};

use core_store::{Store, settle};
use rpc_machine::{Node, Reason, Resolution, Returned};
use rpc_msg::{CapAt, Descriptor, ExportId, Op, Path, Payload, QuestionId, Target};

/// What is known of a wire.
#[derive(Clone, Copy, Debug, PartialEq, Eq, Drop)]
pub enum Known {
    /// Nothing yet.
    Nothing,
    /// That it is broken.
    Broken(Reason),
    /// What it was resolved to: the descriptor, and its node.
    Leads(Descriptor, Node),
}

// What a descriptor says of the wire for which it stands.
fn by_descriptor(said: Descriptor, node: Node) -> Known
    ensures { as_known result ≡ known_by said node }
{
    match said {
        Descriptor::None => Known::Broken(Reason::NullCapability),
        _ => Known::Leads(said, node),
    }
}

// What its Resolve said of an import.
fn of_import(store: &Store, id: ExportId) -> Known
    ensures { as_known result ≡ known_of_wire (state_of store.now) (node.Import id) }
{
    let Some(import) = store.imports.get(id.0) else {
        return Known::Nothing;
    };
    match &import.resolution {
        None => Known::Nothing,
        Some(Resolution::To(said, node)) => by_descriptor(*said, *node),
        Some(Resolution::Exception(_)) => Known::Broken(Reason::BrokenPromise),
    }
}

// What a Return's results say of the place at a path.
fn of_results(payload: &Payload, caps: &[(Descriptor, Node)], path: &[Op]) -> Known
    ensures { as_known result ≡ known_cap caps.now (cap_at payload.now path.now) }
{
    match payload.cap_at(path) {
        CapAt::Cap(index) => match caps.get(index as usize) {
            Some((said, node)) => by_descriptor(*said, *node),
            None => Known::Broken(Reason::BrokenPromise),
        },
        CapAt::Null => Known::Broken(Reason::NullCapability),
        CapAt::NotCap => Known::Broken(Reason::BrokenPromise),
    }
}

// What its Return said of a Pipe.
fn of_pipe(store: &Store, id: QuestionId, path: Path) -> Known
    ensures { as_known result ≡ known_of_wire (state_of store.now) (node.Pipe id path) }
{
    let Some(question) = store.questions.get(id) else {
        return Known::Nothing;
    };
    match &question.returned {
        None => Known::Nothing,
        Some(Returned::Results(payload, caps)) => of_results(payload, caps, path.as_slice()),
        Some(Returned::Exception(_)) => Known::Broken(Reason::BrokenPromise),
    }
}

/// What is known of a wire: what its Resolve said of an import, or its Return of a Pipe. Of other nodes nothing is.
pub fn known_of_wire(store: &Store, node: Node) -> Known
    ensures { as_known result ≡ known_of_wire (state_of store.now) node }
{
    match node {
        Node::Import(id) => of_import(store, id),
        Node::Pipe(id, path) => of_pipe(store, id, path),
        _ => Known::Nothing,
    }
}

/// The target of messages on a wire. Of other nodes there is none.
pub fn wire_target(node: &Node) -> Option<Target>
    ensures { result ≡ wire_target node.now }
{
    match node {
        Node::Import(id) => Some(Target::ImportedCap(*id)),
        Node::Pipe(question, path) => Some(Target::PromisedAnswer(*question, *path)),
        _ => None,
    }
}

/// Whether a node settles to that wire.
pub fn leads_back(store: &Store, node: Node, wire: Node) -> bool
    requires sound { IsSound store.now }
    requires wire { is_wire wire ≡ true }
    ensures is { IsTrue result ↔ settle (state_of store.now) node ≡ wire }
    ensures same { result ≡ is_same_node (settle (state_of store.now) node) wire }
{
    settle(store, node) == wire
}
