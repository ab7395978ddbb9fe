//! How long a round trip of two vats takes, with the journal of it.

use crate::astray::Astray;
use crate::done::{Done, Outcome, Task};
use rpc_machine::{CallCommand, Command, Effects, Event};
use rpc_msg::{Items, ObjectId, Payload, RefId, Vat};
use std::alloc::Global;
use std::rt::Clock;
use std::time::Instant;
use vat_core::Answer;
use vat_world::{StepAnswer, World};

/// Prints how many round trips take place in a second, of so many in each of so many worlds, one after the other. Each call is
/// made, delivered, answered, told and finished: six events of two vats, and eleven entries of their journal, which is kept as
/// long as its world. Making a world and letting it go is not timed.
pub fn measure(
    rt: &(impl Clock + Print),
    alloc: Global,
    rounds: u32,
    worlds: u32,
) -> anyhow::Result<()> {
    let mut nanos: u128 = 0;
    let mut entries: usize = 0;
    for _ in 0..worlds {
        let mut vats = Vats::new(alloc)?;
        nanos = nanos.saturating_add(vats.time_round_trips(rt, rounds)?);
        entries = entries.saturating_add(vats.world.journal().len());
    }
    let trips = u128::from(rounds).saturating_mul(u128::from(worlds));
    let a_second = trips.saturating_mul(1_000_000_000) / nanos.max(1);
    println!(rt; "{a_second} round trips a second, {entries} entries")?;
    Ok(())
}

/// Two vats, and the null payload of their calls and results, whose copies share its bytes. Each event does the one thing that
/// the caller says, or the vats are `Astray`.
#[derive(Drop)]
struct Vats {
    alloc: Global,
    world: World,
    null: Payload,
}

impl Vats {
    fn new(alloc: Global) -> Result<Vats, Astray> {
        let world = World::new(alloc, None, Some(ObjectId(0)))?;
        let null = Payload::null(alloc)?;
        Ok(Vats { alloc, world, null })
    }

    /// Vat a comes to hold a reference to the other's bootstrap object.
    fn meet(&mut self) -> Result<RefId, Astray> {
        self.command(Vat::A, Command::Bootstrap)?;
        self.deliver(Vat::B)?.nothing()?;
        let outcome = self.deliver(Vat::A)?.outcome()?;
        self.finish(outcome)?;
        match outcome.given {
            Some(root) => Ok(root),
            None => Err(Astray::Otherwise),
        }
    }

    /// How many nanoseconds so many round trips take.
    fn time_round_trips(&mut self, rt: &impl Clock, rounds: u32) -> anyhow::Result<u128> {
        let root = self.meet()?;
        let start = Instant::now(rt)?;
        for _ in 0..rounds {
            self.round_trip(root)?;
        }
        Ok(start.elapsed(rt)?.as_nanos())
    }

    fn round_trip(&mut self, root: RefId) -> Result<(), Astray> {
        self.call(root)?;
        let task = self.deliver(Vat::B)?.task()?;
        self.answer(task)?;
        let outcome = self.deliver(Vat::A)?.outcome()?;
        self.finish(outcome)
    }

    fn call(&mut self, reference: RefId) -> Result<(), Astray> {
        let call = CallCommand {
            reference,
            interface: 0,
            method: 0,
            payload: self.null.copy(self.alloc)?,
            refs: Items::new(self.alloc),
        };
        self.command(Vat::A, Command::Call(call))
    }

    fn answer(&mut self, task: Task) -> Result<(), Astray> {
        let payload = self.null.copy(self.alloc)?;
        let refs = Items::new(self.alloc);
        self.command(Vat::B, Command::Answer(task.id, payload, refs))
    }

    fn finish(&mut self, outcome: Outcome) -> Result<(), Astray> {
        self.command(Vat::A, Command::Finish(outcome.call))?;
        self.deliver(Vat::B)?.nothing()
    }

    fn command(&mut self, vat: Vat, command: Command) -> Result<(), Astray> {
        self.step(vat, Event::Command(vat, command))?.nothing()
    }

    fn deliver(&mut self, vat: Vat) -> Result<Done, Astray> {
        self.step(vat, Event::Deliver(vat))
    }

    #[inline(always)]
    fn step(&mut self, vat: Vat, event: Event) -> Result<Done, Astray> {
        match self.world.step(event) {
            StepAnswer::Answered(Answer::Done(_, effects)) => self.did(vat, effects),
            StepAnswer::Answered(Answer::Refused(refusal, _)) => Err(Astray::Refused(refusal)),
            StepAnswer::Handled(effects) => self.did(vat, effects),
            StepAnswer::Empty => Err(Astray::Otherwise),
        }
    }

    #[inline(always)]
    fn did(&mut self, vat: Vat, effects: Effects) -> Result<Done, Astray> {
        let done = Done::of(&effects);
        self.world.recycle(vat, effects);
        done
    }
}
