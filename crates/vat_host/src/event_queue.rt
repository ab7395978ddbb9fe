ghost use Rattle.std.specs.Prelude.{◌≡◌, ◌≤◌, ◌+◌, ◌<◌, [], ◌∷◌, ◌++◌, length, ◌==◌, OnOk, IfSome, IfNone};
ghost use Rattle.vat_host.specs.Queues.{told_of};

use crate::event::Event;
use rpc_journal::{Delivery, Ended};
use rpc_msg::{Items, Memory};
use std::alloc::Global;
use std::collections::VecDeque;
use std::marker::Model;
use std::mem;

/// What one step left to tell.
#[derive(Drop)]
pub(crate) struct StepEvents {
    deliveries: Items<Delivery>,
    ended: Items<Ended>,
    known: Option<Event>,
}

/// Events that come step by step and go one by one, the oldest first; of one step the calls to serve, then the own calls that
/// ended, and then what its message made known. Seen by contracts as the events, and for how many more steps there is room at least.
#[derive(Drop)]
pub(crate) struct EventQueue {
    // What is left of the oldest step, and the steps behind it.
    deliveries: VecDeque<Delivery>,
    ended: VecDeque<Ended>,
    known: Option<Event>,
    later: VecDeque<StepEvents>,
}

impl Model for EventQueue {
    ghost use Rattle.std.specs.Prelude.{ℕ, List, ◌++◌, ◌-◌};
    ghost use Rattle.std.specs.VecDeque.{deque_len, deque_capacity};
    ghost use Rattle.vat_host.specs.declared.event.Event.{Event};
    ghost use Rattle.vat_host.specs.Queues.{EachTells, told_by_all, told_of};

    ghost Value = { List Event × ℕ };

    ghost view = { λ a. (told_of a.deliveries.items a.ended.items a.known ++ told_by_all a.later.items, deque_capacity a.later - deque_len a.later) };

    ghost invariant = { λ a. EachTells a.later.items };
}

impl EventQueue {
    /// No events, and no room. Takes no memory.
    pub(crate) fn new(alloc: Global) -> Self
        ensures { result.0 ≡ [] }
    {
        EventQueue {
            deliveries: VecDeque::new(alloc),
            ended: VecDeque::new(alloc),
            known: None,
            later: VecDeque::new(alloc),
        }
    }

    /// Makes room for the events of one step.
    pub(crate) fn reserve(&mut self) -> Result<(), Memory>
        ensures same { self.new.0 ≡ self.old.0 }
        ensures ok { OnOk result (0 < self.new.1) }
    {
        match self.later.reserve(1) {
            Ok(()) => return Ok(()),
            Err(_) => return Err(Memory),
        }
    }

    /// Puts what a step left to tell at the end, if there is room unless it is nothing. Takes no memory.
    pub(crate) fn append(
        &mut self,
        deliveries: Items<Delivery>,
        ended: Items<Ended>,
        known: Option<Event>,
    )
        requires { 0 < length (told_of deliveries ended known) → 0 < self.old.1 }
        ensures { self.new.0 ≡ self.old.0 ++ told_of deliveries ended known }
    {
        if tells_nothing(&deliveries, &ended, &known) {
            return;
        }
        self.later.push_back_reserved(StepEvents {
            deliveries,
            ended,
            known,
        });
    }

    /// Takes the oldest event out, if there is one.
    pub(crate) fn pop(&mut self) -> Option<Event>
        ensures oldest { IfSome result (λ event. self.old.0 ≡ event ∷ self.new.0) }
        ensures empty { IfNone result ((self.old.0 ≡ []) × (self.new.0 ≡ [])) }
    {
        if let Some(event) = oldest(&mut self.deliveries, &mut self.ended, &mut self.known) {
            return Some(event);
        }
        let StepEvents {
            deliveries,
            ended,
            known,
        } = self.later.pop_front()?;
        self.deliveries = VecDeque::from(deliveries.into_vec());
        self.ended = VecDeque::from(ended.into_vec());
        self.known = known;
        oldest(&mut self.deliveries, &mut self.ended, &mut self.known)
    }

    /// Whether there is no event.
    pub(crate) fn is_empty(&self) -> bool
        ensures { result ≡ (length self.now.0 == 0) }
    {
        if !self.deliveries.is_empty() {
            return false;
        }
        if !self.ended.is_empty() {
            return false;
        }
        if self.known.is_some() {
            return false;
        }
        self.later.is_empty()
    }

    /// The memory of the lists of a step whose events were all taken out, if there is one, to be used again.
    pub(crate) fn spent(&mut self, alloc: Global) -> Option<(Items<Delivery>, Items<Ended>)>
        ensures same { self.new ≡ self.old }
    {
        if !self.deliveries.is_empty() || !self.ended.is_empty() {
            return None;
        }
        let deliveries = mem::replace(&mut self.deliveries, VecDeque::new(alloc));
        let ended = mem::replace(&mut self.ended, VecDeque::new(alloc));
        Some((
            Items::from_vec(Vec::from(deliveries)),
            Items::from_vec(Vec::from(ended)),
        ))
    }
}

// Takes the oldest event of a step out, if one is left.
fn oldest(
    deliveries: &mut VecDeque<Delivery>,
    ended: &mut VecDeque<Ended>,
    known: &mut Option<Event>,
) -> Option<Event>
    ensures oldest { IfSome result (λ event. told_of deliveries.old.items ended.old.items known.old ≡ event ∷ told_of deliveries.new.items ended.new.items known.new) }
    ensures none_before { IfNone result (told_of deliveries.old.items ended.old.items known.old ≡ []) }
    ensures none { IfNone result (told_of deliveries.new.items ended.new.items known.new ≡ []) }
{
    if let Some(delivery) = deliveries.pop_front() {
        return Some(Event::Served(delivery));
    }
    if let Some(call) = ended.pop_front() {
        return Some(Event::Ended(call));
    }
    known.take()
}

// Whether a step left nothing to tell.
fn tells_nothing(deliveries: &Items<Delivery>, ended: &Items<Ended>, known: &Option<Event>) -> bool
    ensures { result ≡ (length (told_of deliveries.now ended.now known.now) == 0) }
{
    if !deliveries.is_empty() {
        return false;
    }
    if !ended.is_empty() {
        return false;
    }
    known.is_none()
}
