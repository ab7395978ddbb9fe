//! Round trips over two ends that one thread drives.

use crate::astray::Astray;
use crate::linked::{answer, call, finish, linked, meet, taken};
use anyhow::Result;
use link_ends::{EndA, EndB};
use rpc_msg::{Payload, RefId};
use std::alloc::Global;
use std::rt::Clock;
use std::time::Instant;

/// How many places a ring has.
const PLACES: usize = 256;

/// Prints how many round trips take place in a second, of so many over each of so many links, one after the other. Each call is
/// made, delivered, answered, told and finished, and is six entries of two logs. Making a link and letting it go is not timed.
pub(crate) fn measure(
    rt: &(impl Clock + Print),
    alloc: Global,
    rounds: u32,
    links: u32,
) -> Result<()> {
    let mut nanos: u128 = 0;
    for _ in 0..links {
        let (mut a, mut b) = linked(alloc, PLACES)?;
        let null = Payload::null(alloc)?;
        let root = meet(&mut a, &mut b)?;
        let start = Instant::now(rt)?;
        for _ in 0..rounds {
            round_trip(&mut a, &mut b, alloc, &null, root)?;
        }
        nanos = nanos.saturating_add(start.elapsed(rt)?.as_nanos());
    }
    let trips = u128::from(rounds).saturating_mul(u128::from(links));
    let a_second = trips.saturating_mul(1_000_000_000) / nanos.max(1);
    println!(rt; "{a_second} round trips a second over two ends")?;
    Ok(())
}

fn round_trip(
    a: &mut EndA,
    b: &mut EndB,
    alloc: Global,
    null: &Payload,
    root: RefId,
) -> Result<(), Astray> {
    let made = call(a, alloc, null, root)?;
    let Some(task) = taken(b)?.task else {
        return Err(Astray::Otherwise);
    };
    answer(b, alloc, null, task)?;
    if taken(a)?.ended != Some(made) {
        return Err(Astray::Otherwise);
    }
    finish(a, made)?;
    taken(b)?;
    Ok(())
}
