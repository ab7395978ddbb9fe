//! Measures two connections in one process, whose bytes go both ways through memory. What it prints differs from run to run;
//! `docs/benchmarks.md` has figures.
//!
//! `bench_connection TRIPS CYCLES` makes so many calls that are answered and finished, and then takes so many shorter paths
//! behind embargoes.
//! Without arguments it does nothing.
#![tactic(auto)]

mod pair;
mod side;

use anyhow::{Result, bail};
use pair::Pair;
use std::env;
use std::process::ExitCode;
use std::time::Instant;

/// How often something takes place in a second.
fn rate(count: u32, nanos: u128) -> u128 {
    u128::from(count).saturating_mul(1_000_000_000) / nanos.max(1)
}

/// Prints how many round trips take place in a second, and how many cycles with an embargo.
fn measure(rt: &HostRuntime, pair: &mut Pair, trips: u32, cycles: u32) -> Result<()> {
    let start = Instant::now(rt)?;
    for _ in 0..trips {
        pair.round_trip()?;
    }
    let trips = rate(trips, start.elapsed(rt)?.as_nanos());
    let start = Instant::now(rt)?;
    for _ in 0..cycles {
        pair.cycle()?;
    }
    let cycles = rate(cycles, start.elapsed(rt)?.as_nanos());
    println!(rt; "{trips} round trips and {cycles} cycles with an embargo a second")?;
    Ok(())
}

fn main(rt: HostRuntime) -> Result<ExitCode> {
    let mut words = env::args(&rt)?;
    let _program = words.next();
    let Some(trips) = words.next() else {
        return Ok(ExitCode::SUCCESS);
    };
    let Some(cycles) = words.next() else {
        bail!("usage: bench_connection TRIPS CYCLES");
    };
    let (trips, cycles) = (trips.as_str().parse()?, cycles.as_str().parse()?);
    let mut pair = Pair::new(rt.alloc())?;
    measure(&rt, &mut pair, trips, cycles)?;
    Ok(ExitCode::SUCCESS)
}
