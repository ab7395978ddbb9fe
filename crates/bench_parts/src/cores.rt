//! How long a round trip of two cores takes, and a cycle with an embargo.

use crate::astray::Astray;
use crate::done::Task;
use crate::side::Side;
use rpc_msg::{ObjectId, RefId, Vat};
use std::alloc::Global;
use std::rt::Clock;
use std::time::Instant;

/// How many round trips there are, if no number is given.
pub const TRIPS: u32 = 400_000;

/// How many cycles there are, if no number is given.
pub const CYCLES: u32 = 40_000;

/// What there is beside what is measured.
#[derive(Clone, Copy, Drop)]
pub struct Load {
    /// Calls of vat a that vat b has not answered.
    pub open: u32,
    /// Calls that wait at a promise of vat a.
    pub waiting: u32,
    /// Objects of vat a that vat b has a reference to.
    pub exports: u32,
}

/// How often what is measured takes place.
#[derive(Clone, Copy, Drop)]
pub struct Rounds {
    pub trips: u32,
    pub cycles: u32,
}

/// Two vats. Vat a has a reference to the bootstrap object of vat b, which has one to an object of vat a.
#[derive(Drop)]
struct Pair {
    a: Side,
    b: Side,
    root: RefId,
    theirs: RefId,
}

impl Pair {
    fn new(alloc: Global) -> Result<Pair, Astray> {
        let mut a = Side::new(alloc, Vat::A, None)?;
        let mut b = Side::new(alloc, Vat::B, Some(ObjectId(0)))?;
        let asked = a.bootstrap()?;
        let results = b.reply(asked)?;
        let outcome = a.receive(results)?.outcome()?;
        a.finish(&mut b, outcome)?;
        let root = given(outcome.given)?;
        let own = a.host(ObjectId(1))?;
        let theirs = pass(&mut a, &mut b, root, own)?;
        Ok(Pair { a, b, root, theirs })
    }

    fn add(&mut self, load: Load) -> Result<(), Astray> {
        for number in 0..load.exports {
            let own = self.a.host(ObjectId(u64::from(number)))?;
            pass(&mut self.a, &mut self.b, self.root, own)?;
        }
        for _ in 0..load.open {
            let _ = self.a.call(&mut self.b, self.root)?.task()?;
        }
        let (_, promised) = self.a.promise()?;
        for _ in 0..load.waiting {
            self.a.call_later(promised)?;
        }
        Ok(())
    }

    /// A call, its answer, and its end.
    fn round_trip(&mut self) -> Result<(), Astray> {
        let task = self.a.call(&mut self.b, self.root)?.task()?;
        let outcome = self.b.answer(&mut self.a, task)?.outcome()?;
        self.a.finish(&mut self.b, outcome)
    }

    /// A promise of vat b is resolved to an object of vat a, which has called it already: it takes the short path, and calls
    /// again behind an embargo.
    fn cycle(&mut self) -> Result<(), Astray> {
        let (promise, promised) = self.b.promise()?;
        let task = self.a.call(&mut self.b, self.root)?.task()?;
        let answered = self.b.answer_with(&mut self.a, task, promised)?;
        let outcome = answered.outcome()?;
        self.b.let_go(promised)?;
        self.a.finish(&mut self.b, outcome)?;
        let reference = given(outcome.given)?;
        // it waits at the promise
        self.a.call(&mut self.b, reference)?.nothing()?;
        let come_back = self.b.resolve(&mut self.a, promise, self.theirs)?;
        self.embargo(reference, come_back.task()?)
    }

    fn embargo(&mut self, reference: RefId, first: Task) -> Result<(), Astray> {
        let echo = self.a.advance(&mut self.b, reference)?;
        self.a.call_later(reference)?;
        let second = self.a.receive(echo)?.task()?;
        let outcome = self.a.answer_own(second)?;
        self.a.finish_own(outcome)?;
        // Vat b, which passed the first call on, passes its answer back.
        let outcome = self.a.answer_passed(&mut self.b, first)?.outcome()?;
        self.a.finish(&mut self.b, outcome)?;
        self.a.let_go(reference)
    }
}

/// Vat a calls the root of vat b and passes it a reference: the one that vat b is given.
fn pass(a: &mut Side, b: &mut Side, root: RefId, own: RefId) -> Result<RefId, Astray> {
    let task = a.call_with(b, root, own)?.task()?;
    let outcome = b.answer(a, task)?.outcome()?;
    a.finish(b, outcome)?;
    given(task.given)
}

fn given(reference: Option<RefId>) -> Result<RefId, Astray> {
    match reference {
        Some(reference) => Ok(reference),
        None => Err(Astray::Otherwise),
    }
}

/// How often something takes place in a second.
fn rate(count: u32, nanos: u128) -> u128 {
    u128::from(count).saturating_mul(1_000_000_000) / nanos.max(1)
}

/// Prints how many round trips take place in a second, and how many embargoes.
pub fn measure(
    rt: &(impl AllocGlobal + Clock + Print),
    load: Load,
    rounds: Rounds,
) -> anyhow::Result<()> {
    let mut pair = Pair::new(rt.alloc())?;
    pair.add(load)?;
    let start = Instant::now(rt)?;
    for _ in 0..rounds.trips {
        pair.round_trip()?;
    }
    let trips = rate(rounds.trips, start.elapsed(rt)?.as_nanos());
    let start = Instant::now(rt)?;
    for _ in 0..rounds.cycles {
        pair.cycle()?;
    }
    let cycles = rate(rounds.cycles, start.elapsed(rt)?.as_nanos());
    println!(rt; "{trips} round trips and {cycles} cycles with an embargo a second")?;
    Ok(())
}
