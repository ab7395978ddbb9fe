//! A vat of which each step does one thing.

use crate::astray::Astray;
use crate::done::{Done, Outcome, Task};
use rpc_journal::Advanced;
use rpc_machine::{CallCommand, Effects, Level};
use rpc_msg::{Items, Message, ObjectId, Payload, PromiseId, RefId, Vat};
use std::alloc::Global;
use std::mem;
use vat_core::Core;

/// A vat, and the payloads of its calls and results, whose copies share their bytes: one is null, the other a capability.
/// Each of its steps does the one thing that the caller says, or the vat is `Astray`. If a call has another vat `to`,
/// that is a message, which goes straight there, and what is answered is what it leads to.
#[derive(Drop)]
pub(crate) struct Side {
    alloc: Global,
    core: Core,
    null: Payload,
    capability: Payload,
}

impl Side {
    pub(crate) fn new(alloc: Global, vat: Vat, root: Option<ObjectId>) -> Result<Side, Astray> {
        let core = Core::new(alloc, vat, Level::One, root)?;
        let null = Payload::null(alloc)?;
        let capability = Payload::root_capability(alloc)?;
        Ok(Side {
            alloc,
            core,
            null,
            capability,
        })
    }

    // What these effects are, if nothing was sent.
    #[inline(always)]
    fn look(&mut self, effects: Effects) -> Result<Done, Astray> {
        let done = Done::of(&effects);
        self.core.recycle(effects);
        done
    }

    #[inline(never)]
    fn did(&mut self, effects: Effects) -> Result<Done, Astray> {
        self.look(effects)
    }

    // A message alone was sent.
    #[inline(always)]
    fn sent(&mut self, mut effects: Effects) -> Result<Message, Astray> {
        let Some(message) = take_only(&mut effects, self.alloc) else {
            return Err(self.otherwise(effects));
        };
        self.core.recycle(effects);
        Ok(message)
    }

    // Something else than the messages that are expected.
    #[cold]
    #[inline(never)]
    fn otherwise(&mut self, effects: Effects) -> Astray {
        let down = effects.down;
        self.core.recycle(effects);
        match down {
            Some(number) => Astray::Down(number),
            None => Astray::Otherwise,
        }
    }

    // A message alone was sent, and goes straight there.
    #[inline(never)]
    pub(crate) fn send(&mut self, to: &mut Side, effects: Effects) -> Result<Done, Astray> {
        let effects = self.pass(to, effects)?;
        to.look(effects)
    }

    // The same, if what it leads to is still to be looked at. It says itself what `sent` says, since a message that is
    // handed on in a `Result` is copied several times, which takes a tenth of a round trip.
    #[inline(always)]
    fn pass(&mut self, to: &mut Side, mut effects: Effects) -> Result<Effects, Astray> {
        let Some(message) = take_only(&mut effects, self.alloc) else {
            return Err(self.otherwise(effects));
        };
        self.core.recycle(effects);
        Ok(to.core.receive(message))
    }

    // The same, if it leads to nothing.
    #[inline(always)]
    fn tell(&mut self, to: &mut Side, effects: Effects) -> Result<(), Astray> {
        self.send(to, effects)?.nothing()
    }

    // Two messages were sent, and go straight there, in that order. What the first leads to is still to be looked at; the
    // second leads to nothing.
    #[inline(never)]
    fn send_two(&mut self, to: &mut Side, mut effects: Effects) -> Result<Effects, Astray> {
        let Some(first) = take_first(&mut effects, self.alloc) else {
            return Err(self.otherwise(effects));
        };
        let led_to = to.core.receive(first);
        match self.tell(to, effects) {
            Ok(()) => Ok(led_to),
            Err(astray) => {
                to.core.recycle(led_to);
                Err(astray)
            }
        }
    }

    /// Takes a message, and sends nothing.
    pub(crate) fn receive(&mut self, message: Message) -> Result<Done, Astray> {
        let effects = self.core.receive(message);
        self.did(effects)
    }

    /// Takes a message, and sends one.
    pub(crate) fn reply(&mut self, message: Message) -> Result<Message, Astray> {
        let effects = self.core.receive(message);
        self.sent(effects)
    }

    pub(crate) fn host(&mut self, object: ObjectId) -> Result<RefId, Astray> {
        Ok(self.core.host(object)?)
    }

    pub(crate) fn promise(&mut self) -> Result<(PromiseId, RefId), Astray> {
        Ok(self.core.promise()?)
    }

    pub(crate) fn bootstrap(&mut self) -> Result<Message, Astray> {
        let (_, effects) = self.core.bootstrap()?;
        self.sent(effects)
    }

    #[inline(always)]
    pub(crate) fn call(&mut self, to: &mut Side, reference: RefId) -> Result<Done, Astray> {
        let payload = self.null.copy(self.alloc)?;
        let refs = Items::new(self.alloc);
        let effects = self.calls(reference, payload, refs)?;
        self.send(to, effects)
    }

    /// A call that passes a reference.
    pub(crate) fn call_with(
        &mut self,
        to: &mut Side,
        reference: RefId,
        passed: RefId,
    ) -> Result<Done, Astray> {
        let payload = self.capability.copy(self.alloc)?;
        let refs = one(self.alloc, passed)?;
        let effects = self.calls(reference, payload, refs)?;
        self.send(to, effects)
    }

    /// A call that waits at this vat.
    pub(crate) fn call_later(&mut self, reference: RefId) -> Result<(), Astray> {
        let payload = self.null.copy(self.alloc)?;
        let refs = Items::new(self.alloc);
        let effects = self.calls(reference, payload, refs)?;
        self.did(effects)?.nothing()
    }

    fn calls(
        &mut self,
        reference: RefId,
        payload: Payload,
        refs: Items<RefId>,
    ) -> Result<Effects, Astray> {
        let call = CallCommand {
            reference,
            interface: 0,
            method: 0,
            payload,
            refs,
        };
        match self.core.call(call) {
            Ok((_, effects)) => Ok(effects),
            Err(refused) => Err(Astray::Refused(refused.refusal)),
        }
    }

    #[inline(always)]
    pub(crate) fn answer(&mut self, to: &mut Side, task: Task) -> Result<Done, Astray> {
        let effects = self.answers(task)?;
        self.send(to, effects)
    }

    /// The answer to a task, with a reference.
    pub(crate) fn answer_with(
        &mut self,
        to: &mut Side,
        task: Task,
        passed: RefId,
    ) -> Result<Done, Astray> {
        let payload = self.capability.copy(self.alloc)?;
        let refs = one(self.alloc, passed)?;
        match self.core.answer(task.id, payload, refs) {
            Ok(effects) => self.send(to, effects),
            Err(refused) => Err(Astray::Refused(refused.refusal)),
        }
    }

    /// The answer to a task that the other vat passed on from this one: it sends the answer back, and its end.
    pub(crate) fn answer_passed(&mut self, to: &mut Side, task: Task) -> Result<Done, Astray> {
        let effects = self.answers(task)?;
        let effects = self.pass(to, effects)?;
        let effects = to.send_two(self, effects)?;
        self.did(effects)
    }

    /// The answer to a task that is a call of this vat's own.
    pub(crate) fn answer_own(&mut self, task: Task) -> Result<Outcome, Astray> {
        let effects = self.answers(task)?;
        self.did(effects)?.outcome()
    }

    fn answers(&mut self, task: Task) -> Result<Effects, Astray> {
        let payload = self.null.copy(self.alloc)?;
        let refs = Items::new(self.alloc);
        match self.core.answer(task.id, payload, refs) {
            Ok(effects) => Ok(effects),
            Err(refused) => Err(Astray::Refused(refused.refusal)),
        }
    }

    #[inline(always)]
    pub(crate) fn finish(&mut self, to: &mut Side, outcome: Outcome) -> Result<(), Astray> {
        let effects = self.core.finish(outcome.call)?;
        self.tell(to, effects)
    }

    /// Finishes a call to an object of this vat.
    pub(crate) fn finish_own(&mut self, outcome: Outcome) -> Result<(), Astray> {
        let effects = self.core.finish(outcome.call)?;
        self.did(effects)?.nothing()
    }

    /// Resolves a promise for which one call waits, and which the other vat has: the call goes there, and then the promise's
    /// end.
    pub(crate) fn resolve(
        &mut self,
        to: &mut Side,
        promise: PromiseId,
        reference: RefId,
    ) -> Result<Done, Astray> {
        let effects = self.core.resolve(promise, reference)?;
        let effects = self.send_two(to, effects)?;
        to.did(effects)
    }

    /// Lets a reference take the shorter path, behind an embargo: what the other vat sends at the message that asks for its
    /// end, which is to be an echo.
    pub(crate) fn advance(&mut self, to: &mut Side, reference: RefId) -> Result<Message, Astray> {
        let (advanced, effects) = self.core.advance(reference)?;
        let led_to = self.send_two(to, effects)?;
        let echo = to.sent(led_to)?;
        match advanced {
            Advanced::Embargoed => Ok(echo),
            _ => Err(Astray::Otherwise),
        }
    }

    pub(crate) fn let_go(&mut self, reference: RefId) -> Result<(), Astray> {
        let effects = self.core.drop_ref(reference)?;
        self.did(effects)?.nothing()
    }
}

fn one(alloc: Global, reference: RefId) -> Result<Items<RefId>, Astray> {
    match Items::one(alloc, reference) {
        Ok(refs) => Ok(refs),
        Err(_) => Err(Astray::Memory),
    }
}

// Whether these effects are so many messages alone.
#[inline(always)]
fn only_sends(effects: &Effects, count: usize) -> bool {
    effects.down.is_none()
        && effects.sends.len() == count
        && effects.deliveries.is_empty()
        && effects.answers.is_empty()
}

// The message that these effects are alone, which goes out of its list.
#[inline(always)]
fn take_only(effects: &mut Effects, alloc: Global) -> Option<Message> {
    if !only_sends(effects, 1) {
        return None;
    }
    let mut sends = mem::replace(&mut effects.sends, Items::new(alloc)).into_vec();
    let message = sends.pop();
    // Nothing is there to be dropped.
    mem::forget(mem::replace(&mut effects.sends, Items::from_vec(sends)));
    message
}

// The first of the two messages that these effects are, which goes out of its list; the other is the first then.
#[inline(always)]
fn take_first(effects: &mut Effects, alloc: Global) -> Option<Message> {
    if !only_sends(effects, 2) {
        return None;
    }
    let mut sends = mem::replace(&mut effects.sends, Items::new(alloc)).into_vec();
    let message = if sends.is_empty() {
        None
    } else {
        Some(sends.swap_remove(0))
    };
    // Nothing is there to be dropped.
    mem::forget(mem::replace(&mut effects.sends, Items::from_vec(sends)));
    message
}
