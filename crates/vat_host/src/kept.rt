ghost use Rattle.std.specs.Prelude.{◌≡◌, ◌≤◌, ◌+◌, ◌<◌, [], ◌++◌, length, OnOk, IfOk};
ghost use Rattle.vat_host.specs.Queues.{HasPlace, told};

use crate::event::Event;
use crate::event_queue::EventQueue;
use crate::list_queue::ListQueue;
use rpc_machine::Effects;
use rpc_msg::{Memory, Message};
use std::alloc::Global;

/// What the steps of a core left to do, the oldest first: messages to send, and events to tell.
#[derive(Drop)]
pub(crate) struct Kept {
    pub(crate) messages: ListQueue<Message>,
    pub(crate) events: EventQueue,
}

impl Kept {
    /// Nothing, with the place for an Abort.
    pub(crate) fn new(alloc: Global) -> Result<Self, Memory>
        ensures messages { IfOk result (λ kept. kept.messages.0 ≡ []) }
        ensures events { IfOk result (λ kept. kept.events.0 ≡ []) }
        ensures room { IfOk result (λ kept. 0 < kept.messages.1) }
    {
        let mut messages = ListQueue::new(alloc);
        messages.reserve(1)?;
        Ok(Kept {
            messages,
            events: EventQueue::new(alloc),
        })
    }

    /// Makes a place for the effects of a step, beside the one for an Abort.
    pub(crate) fn make_place(&mut self) -> Result<(), Memory>
        ensures messages { self.new.messages.0 ≡ self.old.messages.0 }
        ensures events { self.new.events.0 ≡ self.old.events.0 }
        ensures messages_place { OnOk result (2 ≤ self.new.messages.1) }
        ensures events_place { OnOk result (0 < self.new.events.1) }
        ensures room { self.old.messages.1 ≤ self.new.messages.1 }
    {
        self.messages.reserve(2)?;
        self.events.reserve()?;
        Ok(())
    }

    /// Keeps what a step left to do, and what its message made known, if there is a place for it. Takes no memory.
    pub(crate) fn keep(&mut self, effects: Effects, known: Option<Event>)
        requires messages_place { HasPlace effects.sends self.old.messages.1 }
        requires events_place { HasPlace (told effects known) self.old.events.1 }
        ensures messages { self.new.messages.0 ≡ self.old.messages.0 ++ effects.sends }
        ensures events { self.new.events.0 ≡ self.old.events.0 ++ told effects known }
        ensures room { self.old.messages.1 ≤ self.new.messages.1 + 1 }
        ensures kept { effects.sends ≡ [] → self.old.messages.1 ≤ self.new.messages.1 }
    {
        let Effects {
            sends,
            deliveries,
            answers,
            down: _,
        } = effects;
        self.messages.append(sends);
        self.events.append(deliveries, answers, known);
    }
}
