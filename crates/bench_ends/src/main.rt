//! Measures the two ends of a link. What it prints differs from run to run; `docs/benchmarks.md` says how it is measured.
//!
//! `bench_ends ROUNDS [LINKS]` takes calls over two ends that one thread drives, ROUNDS times, over LINKS links in turn.
//! `bench_ends threads ROUNDS [LINKS [CALLS]]` has a thread for each end, which never sleeps, and CALLS calls in flight, 64 by
//! default. Without arguments it does nothing.
#![tactic(auto)]

mod astray;
mod linked;
mod threads;
mod trips;

use anyhow::Result;
use std::env;
use std::env::Args;
use std::process::ExitCode;

/// How many calls are in flight over two threads.
const IN_FLIGHT: u32 = 64;

fn main(rt: HostRuntime) -> Result<ExitCode> {
    let mut words = env::args(&rt)?;
    let _program = words.next();
    let Some(first) = words.next() else {
        return Ok(ExitCode::SUCCESS);
    };
    if first.as_str() == "threads" {
        let rounds = number(&mut words, 0)?;
        let links = number(&mut words, 1)?;
        let in_flight = number(&mut words, IN_FLIGHT)?;
        threads::measure(&rt, rt.alloc(), rounds, links, in_flight)?;
        return Ok(ExitCode::SUCCESS);
    }
    let links = number(&mut words, 1)?;
    trips::measure(&rt, rt.alloc(), first.as_str().parse()?, links)?;
    Ok(ExitCode::SUCCESS)
}

/// The next word as a number, or that one if there is no word.
fn number(words: &mut Args, or: u32) -> Result<u32> {
    match words.next() {
        Some(word) => Ok(word.as_str().parse()?),
        None => Ok(or),
    }
}
