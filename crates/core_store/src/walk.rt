ghost use Rattle.std.specs.Prelude.{◌≡◌, ◌≤◌, None, IsTrue};
ghost use Rattle.rpc_machine.specs.State.{State};
ghost use Rattle.rpc_machine.specs.declared.node.Node.TheVariants as nodes;
ghost use Rattle.rpc_machine.specs.Nodes.{link, settle};
ghost use Rattle.core_waits.specs.Links.{Leads};
ghost use Rattle.core_store.specs.Holding.{state_of, IsSound};

use crate::store::Store;
use core_waits::{Hop, field_of};
use rpc_machine::Node;

/// Where the link of a node leads, if it has one. Takes no memory.
pub fn link(store: &Store, node: Node) -> Option<Node>
    ensures { result ≡ link (state_of store.now) node }
{
    match node {
        Node::Promise(key) => store.waits.promise_link(key),
        Node::Field(key, path) => {
            let value = store.waits.value(key)?;
            Some(field_of(value, path.as_slice()))
        }
        Node::Object(_) => None,
        Node::Import(_) => None,
        Node::Pipe(_, _) => None,
        Node::Broken(_) => None,
    }
}

/// Where a node leads within the vat. Takes no memory.
#[inline(always)]
pub fn settle(store: &Store, node: Node) -> Node
    requires { IsSound store.now }
    ensures { result ≡ settle (state_of store.now) node }
{
    match node {
        Node::Promise(key) => follow_promise(store, key),
        Node::Field(_, _) => follow(store, node),
        Node::Object(_) => node,
        Node::Import(_) => node,
        Node::Pipe(_, _) => node,
        Node::Broken(_) => node,
    }
}

// Whether a node is of a kind that has no links.
fn has_no_link(node: &Node) -> bool
    ensures { IsTrue result → (s : State) → link s node.now ≡ None }
{
    match *node {
        Node::Promise(_) => false,
        Node::Field(_, _) => false,
        Node::Object(_) => true,
        Node::Import(_) => true,
        Node::Pipe(_, _) => true,
        Node::Broken(_) => true,
    }
}

// A promise mostly leads nowhere yet, or to a node without links.
fn follow_promise(store: &Store, key: u64) -> Node
    requires { IsSound store.now }
    ensures { result ≡ settle (state_of store.now) (nodes.Promise key) }
{
    let Some(found) = store.waits.promise_to(key) else {
        return Node::Promise(key);
    };
    if has_no_link(found) {
        return *found;
    }
    follow(store, Node::Promise(key))
}

// By its links, as many at once as are known to lead on.
#[inline(never)]
fn follow(store: &Store, node: Node) -> Node
    requires { IsSound store.now }
    ensures { result ≡ settle (state_of store.now) node }
{
    let mut at = node;
    let mut left = store.links;
    let mut next = store.waits.hop(node, left);
    while let Some(hop) = next {
        let found = hop.to;
        if has_no_link(&found) {
            return found;
        }
        at = found;
        left -= hop.far;
        next = store.waits.hop(found, left);
    }
    at
}

/// Where a node leads within the vat, as `settle` says. The way there is made short: from now on each node on it leads to
/// its end at once, as far as there is memory for that. What the store holds stays as it is.
#[inline(always)]
pub fn shorten(store: &mut Store, node: Node) -> Node
    requires { IsSound store.old }
    ensures end { result ≡ settle (state_of store.old) node }
    ensures same { store.new ≡ store.old }
{
    match node {
        Node::Promise(_) => shorten_way(store, node),
        Node::Field(_, _) => shorten_way(store, node),
        Node::Object(_) => node,
        Node::Import(_) => node,
        Node::Pipe(_, _) => node,
        Node::Broken(_) => node,
    }
}

// A node mostly leads nowhere yet, or at once to one without links.
#[inline(never)]
fn shorten_way(store: &mut Store, node: Node) -> Node
    requires { IsSound store.old }
    ensures end { result ≡ settle (state_of store.old) node }
    ensures same { store.new ≡ store.old }
{
    let (start, from) = (node, node);
    let Some(first) = store.waits.hop(start, store.links) else {
        return node;
    };
    let found = first.to;
    if has_no_link(&found) {
        return found;
    }
    let way = way_from(store, from);
    shorten_each(store, node, &way);
    way.to
}

// The whole way from a node to where it settles.
fn way_from(store: &Store, node: Node) -> Hop
    requires { IsSound store.now }
    ensures end { result.to ≡ settle (state_of store.now) node }
    ensures way { Leads (link (state_of store.now)) result.far node result.to }
    ensures within { result.far ≤ store.now.links }
{
    let mut at = node;
    let mut far = 0;
    let mut next = store.waits.hop(node, store.links);
    while let Some(hop) = next {
        let found = hop.to;
        at = found;
        far += hop.far;
        next = store.waits.hop(found, store.links - far);
    }
    Hop { to: at, far }
}

// Has each node on a way lead to its end at once.
fn shorten_each(store: &mut Store, node: Node, way: &Hop)
    requires { Leads (link (state_of store.old)) way.now.far node way.now.to }
    ensures { store.new ≡ store.old }
{
    let mut at = node;
    let mut left = way.far;
    while left > 0 {
        let (here, from) = (at, at);
        let Some(hop) = store.waits.hop(here, left) else {
            return;
        };
        if hop.far == left {
            return;
        }
        at = hop.to;
        let end = Hop {
            to: way.to,
            far: left,
        };
        store.waits.shorten(from, end);
        left -= hop.far;
    }
}

/// The same for each of these nodes.
pub fn shorten_all(store: &mut Store, nodes: &[Node])
    requires { IsSound store.old }
    ensures { store.new ≡ store.old }
{
    for node in nodes {
        shorten(store, *node);
    }
}
