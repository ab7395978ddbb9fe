ghost use Rattle.std.specs.Prelude.{◌≡◌, ◌≤◌, [], length, vec_capacity};
ghost use Rattle.std.specs.FinMap as map;
ghost use Rattle.rpc_machine.specs.Commands.{head_of, heads};
ghost use Rattle.core_store.specs.Holding.{state_of};

use core_store::Store;
use rpc_machine::{Node, Reason};
use rpc_msg::RefId;

/// Where a reference leads; one that is not there, to nothing.
pub fn head_of(store: &Store, id: RefId) -> Node
    ensures { result ≡ head_of (map.get (state_of store.now).refs id.0) }
{
    match store.refs.get(id.0) {
        Some(reference) => reference.head,
        None => Node::Broken(Reason::NullCapability),
    }
}

/// Where these references lead, put into a list, which is empty and has room for one of each. Takes no memory.
#[inline(always)]
pub fn heads(store: &Store, refs: &[RefId], nodes: &mut Vec<Node>)
    requires empty { nodes.old.items ≡ [] }
    requires room { length refs.now ≤ vec_capacity nodes.old }
    ensures { nodes.new.items ≡ heads (state_of store.now) refs.now }
{
    if refs.is_empty() {
        return;
    }
    heads_each(store, refs, nodes);
}

// The same, one after the other.
fn heads_each(store: &Store, refs: &[RefId], nodes: &mut Vec<Node>)
    requires empty { nodes.old.items ≡ [] }
    requires room { length refs.now ≤ vec_capacity nodes.old }
    ensures { nodes.new.items ≡ heads (state_of store.now) refs.now }
{
    for id in refs {
        let node = head_of(store, *id);
        let Ok(()) = nodes.push(node) else {
            unreachable!()
        };
    }
}
