//! Round trips over two ends, each driven by a thread of its own that never sleeps.

use crate::astray::Astray;
use crate::linked::{answer, call, finish, linked, meet, turn};
use anyhow::Result;
use link_ends::{EndA, EndB};
use rpc_msg::{Payload, RefId};
use std::alloc::Global;
use std::rt::Clock;
use std::thread::Threads;
use std::time::Instant;
use std::{hint, thread};

/// How many times in a row a thread looks for a frame in vain before it gives up.
const PATIENCE: u64 = 1_000_000_000;

/// How many places a ring has for each call that may be in flight, whose frames and whose forerunner's may wait in it.
const PLACES_A_CALL: usize = 4;

/// Prints how many round trips take place in a second, of so many over each of so many links, one after the other, with so many
/// calls in flight. Each vat has a thread: A's makes and finishes the calls, B's answers them. Making a link and letting it go is
/// not timed, starting a thread is.
pub(crate) fn measure<R: Threads + Clock + Print>(
    rt: &R,
    alloc: Global,
    rounds: u32,
    links: u32,
    in_flight: u32,
) -> Result<()> {
    let mut nanos: u128 = 0;
    for _ in 0..links {
        nanos = nanos.saturating_add(time_round_trips(rt, alloc, rounds, in_flight)?);
    }
    let trips = u128::from(rounds).saturating_mul(u128::from(links));
    let a_second = trips.saturating_mul(1_000_000_000) / nanos.max(1);
    println!(rt; "{a_second} round trips a second over two threads, {in_flight} in flight")?;
    Ok(())
}

/// How many nanoseconds so many round trips take over one link.
fn time_round_trips<R: Threads + Clock>(
    rt: &R,
    alloc: Global,
    rounds: u32,
    in_flight: u32,
) -> Result<u128> {
    let places = (in_flight as usize).saturating_mul(PLACES_A_CALL);
    let (mut a, mut b) = linked(alloc, places)?;
    let root = meet(&mut a, &mut b)?;
    let asker = Asker {
        end: a,
        null: Payload::null(alloc)?,
        root,
        to_make: rounds,
        to_end: rounds,
        in_flight,
    };
    let server = Server {
        end: b,
        null: Payload::null(alloc)?,
        to_come: u64::from(rounds).saturating_mul(2),
    };
    let start = Instant::now(rt)?;
    let ((_asker, asked), (_server, served)) = at_once(rt, alloc, asker, server);
    let nanos = start.elapsed(rt)?.as_nanos();
    asked?;
    served?;
    Ok(nanos)
}

/// One end, as its thread drives it.
trait Drives: Drop {
    /// Whether nothing is left to do.
    fn is_done(&self) -> bool;

    /// Does what can be done now: whether there was anything.
    fn go_on(&mut self, alloc: Global) -> Result<bool, Astray>;
}

/// Drives both ends at once, the first on a thread of its own, and gives them back with how it ended.
fn at_once<R: Threads, A: Drives + Send, B: Drives>(
    rt: &R,
    alloc: Global,
    mut a: A,
    mut b: B,
) -> ((A, Result<(), Astray>), (B, Result<(), Astray>)) {
    thread::join(
        rt,
        move || {
            let ended = drive(alloc, &mut a);
            (a, ended)
        },
        move || {
            let ended = drive(alloc, &mut b);
            (b, ended)
        },
    )
}

fn drive<D: Drives>(alloc: Global, end: &mut D) -> Result<(), Astray> {
    let mut in_vain = 0;
    for _ in 0..u64::MAX {
        if end.is_done() || in_vain > PATIENCE {
            break;
        }
        if end.go_on(alloc)? {
            in_vain = 0;
        } else {
            in_vain += 1;
            hint::spin_loop();
        }
    }
    if end.is_done() {
        return Ok(());
    }
    Err(Astray::NoFrame)
}

/// A's end: it makes calls through one reference while fewer than so many are in flight, and finishes those that ended.
#[derive(Drop)]
struct Asker {
    end: EndA,
    null: Payload,
    root: RefId,
    to_make: u32,
    to_end: u32,
    in_flight: u32,
}

impl Drives for Asker {
    fn is_done(&self) -> bool {
        self.to_end == 0
    }

    fn go_on(&mut self, alloc: Global) -> Result<bool, Astray> {
        let makes = self.to_make > 0 && self.to_end.saturating_sub(self.to_make) < self.in_flight;
        if makes {
            call(&mut self.end, alloc, &self.null, self.root)?;
            self.to_make = self.to_make.saturating_sub(1);
        }
        let Some(done) = turn(&mut self.end)? else {
            return Ok(makes);
        };
        let Some(made) = done.ended else {
            return Err(Astray::Otherwise);
        };
        finish(&mut self.end, made)?;
        self.to_end = self.to_end.saturating_sub(1);
        Ok(true)
    }
}

/// B's end: it answers each call as it comes.
#[derive(Drop)]
struct Server {
    end: EndB,
    null: Payload,
    /// How many frames are to come, a Call and a Finish for each call.
    to_come: u64,
}

impl Drives for Server {
    fn is_done(&self) -> bool {
        self.to_come == 0
    }

    fn go_on(&mut self, alloc: Global) -> Result<bool, Astray> {
        let Some(done) = turn(&mut self.end)? else {
            return Ok(false);
        };
        if let Some(task) = done.task {
            answer(&mut self.end, alloc, &self.null, task)?;
        }
        self.to_come = self.to_come.saturating_sub(1);
        Ok(true)
    }
}
