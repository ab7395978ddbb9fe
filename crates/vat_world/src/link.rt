ghost use Rattle.std.specs.Prelude.{◌≡◌, ◌+◌, ◌<◌, ◌≤◌, [], ◌∷◌, ◌++◌, length, OnOk, IfOk, IfSome, IfNone};
ghost use Rattle.std.specs.List.{list_any};
ghost use Rattle.rpc_machine.specs.Queries.{is_through};
ghost use Rattle.rpc_machine.specs.Pending.{in_message, in_messages};

use rpc_msg::{Items, Memory, Message, PlainMessage, RefId, Vat};
use std::alloc::Global;
use std::collections::VecDeque;
use std::marker::Model;

/// The messages that were sent to a vat and that it did not receive, the oldest first, with room for more: seen by
/// contracts as the messages, and how many more fit at least.
#[derive(Drop)]
pub(crate) struct Link {
    messages: VecDeque<Message>,
}

impl Model for Link {
    ghost use Rattle.std.specs.Prelude.{ℕ, List, ◌-◌};
    ghost use Rattle.std.specs.VecDeque.{deque_len, deque_capacity};
    ghost use Rattle.rpc_msg.specs.declared.message.Message.{Message};

    ghost Value = { List Message × ℕ };

    ghost view = { λ a. (a.messages.items, deque_capacity a.messages - deque_len a.messages) };
}

impl Link {
    /// No messages, with room for one.
    pub(crate) fn new(alloc: Global) -> Result<Self, Memory>
        ensures empty { IfOk result (λ link. link.0 ≡ []) }
        ensures room { IfOk result (λ link. 0 < link.1) }
    {
        let mut messages = VecDeque::new(alloc);
        match messages.reserve(1) {
            Ok(()) => Ok(Link { messages }),
            Err(_) => Err(Memory),
        }
    }

    /// Makes room for that many more, beside the place that is kept.
    pub(crate) fn prepare(&mut self, more: usize) -> Result<(), Memory>
        requires { 0 < self.old.1 }
        ensures same { self.new.0 ≡ self.old.0 }
        ensures ok { OnOk result (more + 1 ≤ self.new.1) }
        ensures room { self.old.1 ≤ self.new.1 }
    {
        if more < self.messages.capacity() - self.messages.len() {
            return Ok(());
        }
        self.grow(more)
    }

    #[cold]
    #[inline(never)]
    fn grow(&mut self, more: usize) -> Result<(), Memory>
        ensures same { self.new.0 ≡ self.old.0 }
        ensures ok { OnOk result (more + 1 ≤ self.new.1) }
        ensures room { self.old.1 ≤ self.new.1 }
    {
        let Some(room) = more.checked_add(1) else {
            return Err(Memory);
        };
        match self.messages.reserve(room) {
            Ok(()) => return Ok(()),
            Err(_) => return Err(Memory),
        }
    }

    /// Puts these messages at the end, if there is room, and gives back their list, which is empty. Takes no memory.
    #[inline(always)]
    pub(crate) fn append(&mut self, more: Items<Message>) -> Items<Message>
        requires { length more ≤ self.old.1 }
        ensures messages { self.new.0 ≡ self.old.0 ++ more }
        ensures room { self.old.1 ≤ self.new.1 + length more }
        ensures none { result ≡ [] }
    {
        let mut more = more.into_vec();
        if more.len() == 1 {
            if let Some(message) = more.pop() {
                self.messages.push_back_reserved(message);
            }
            return Items::from_vec(more);
        }
        self.append_all(VecDeque::from(more))
    }

    #[cold]
    #[inline(never)]
    fn append_all(&mut self, mut more: VecDeque<Message>) -> Items<Message>
        requires { length more.items ≤ self.old.1 }
        ensures messages { self.new.0 ≡ self.old.0 ++ more.items }
        ensures room { self.old.1 ≤ self.new.1 + length more.items }
        ensures none { result ≡ [] }
    {
        match self.messages.append(&mut more) {
            Ok(()) => return Items::from_vec(Vec::from(more)),
            Err(_) => unreachable!(),
        }
    }

    /// Takes the oldest message out, if there is one.
    pub(crate) fn pop(&mut self) -> Option<Message>
        ensures oldest { IfSome result (λ message. self.old.0 ≡ message ∷ self.new.0) }
        ensures empty { IfNone result ((self.old.0 ≡ []) × (self.new.0 ≡ [])) }
        ensures room { self.old.1 ≤ self.new.1 }
    {
        self.messages.pop_front()
    }

    /// Whether a Call message among them has a call of that reference.
    pub(crate) fn has_call(&self, vat: Vat, reference: RefId) -> bool
        ensures { result ≡ list_any (is_through (record { vat = vat; number = reference.0 })) (in_messages self.now.0) }
    {
        for message in self.messages.iter() {
            if is_call_of(message, vat, reference) {
                return true;
            }
        }
        false
    }
}

fn is_call_of(message: &Message, vat: Vat, reference: RefId) -> bool
    ensures { result ≡ list_any (is_through (record { vat = vat; number = reference.0 })) (in_message message.now) }
{
    match message {
        Message::Plain(PlainMessage::Call(call)) => {
            vat == call.stamp.vat && reference.0 == call.stamp.reference.0
        }
        _ => false,
    }
}
