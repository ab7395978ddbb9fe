ghost use Rattle.std.specs.Prelude.{◌≡◌, ◌≤◌, [], length, vec_capacity};
ghost use Rattle.rpc_machine.specs.Commands.{request};
ghost use Rattle.core_store.specs.Holding.{state_of};

use core_step_checks::heads;
use core_store::Store;
use rpc_machine::{CallCommand, Node, Reference, Request};
use rpc_msg::{Items, Stamp};

/// What a command calls through that reference, with the heads of its references, put into the list, which is empty and has
/// room for one of each. Takes no memory.
pub fn request_of(
    store: &Store,
    command: CallCommand,
    reference: &Reference,
    nodes: Vec<Node>,
) -> Request
    requires empty { nodes.items ≡ [] }
    requires room { length command.refs ≤ vec_capacity nodes }
    ensures { result ≡ request (state_of store.now) command reference.now }
{
    let CallCommand {
        reference: id,
        interface,
        method,
        payload,
        refs,
    } = command;
    let mut caps = nodes;
    heads(store, &refs, &mut caps);
    let stamp = Stamp {
        vat: store.vat,
        reference: id,
        index: reference.made,
    };
    Request {
        stamp,
        interface,
        method,
        payload,
        caps: Items::from_vec(caps),
    }
}
