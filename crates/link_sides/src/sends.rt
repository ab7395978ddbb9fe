ghost use Rattle.std.specs.Prelude.{◌≡◌, ◌+◌, ◌≤◌, [], length};
ghost use Rattle.core_telling.specs.Told.{without_sends};
ghost use Rattle.link_sides.specs.Rooms.{Queues};

use link_rings::Waiting;
use rpc_machine::Effects;
use rpc_msg::{Items, Message};
use std::alloc::Global;
use std::mem;

/// Puts the messages of a step behind the frames that wait, if there is room; the other effects stay.
pub(crate) fn send(alloc: Global, effects: &mut Effects, waiting: &mut Waiting<Message>)
    requires { length effects.old.sends ≤ waiting.old.room }
    ensures queued { Queues waiting.old effects.old.sends waiting.new }
    ensures room { waiting.old.room ≡ waiting.new.room + length effects.old.sends }
    ensures given { effects.new ≡ without_sends effects.old }
{
    if effects.sends.is_empty() {
        return;
    }
    let sends = mem::replace(&mut effects.sends, Items::new(alloc));
    effects.sends = queue(alloc, sends, waiting);
}

fn queue(alloc: Global, sends: Items<Message>, waiting: &mut Waiting<Message>) -> Items<Message>
    requires { length sends ≤ waiting.old.room }
    ensures queued { Queues waiting.old sends waiting.new }
    ensures room { waiting.old.room ≡ waiting.new.room + length sends }
    ensures none { result ≡ [] }
{
    let mut sends = sends.into_vec();
    if sends.len() == 1 {
        if let Some(message) = sends.pop() {
            waiting.push(message);
        }
        return Items::from_vec(sends);
    }
    queue_all(sends, waiting);
    Items::new(alloc)
}

fn queue_all(sends: Vec<Message>, waiting: &mut Waiting<Message>)
    requires { length sends.items ≤ waiting.old.room }
    ensures queued { Queues waiting.old sends.items waiting.new }
    ensures room { waiting.old.room ≡ waiting.new.room + length sends.items }
{
    for message in sends {
        waiting.push(message);
    }
}
