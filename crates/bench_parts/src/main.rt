//! Measures the parts of a vat. What it prints differs from run to run; `docs/benchmarks.md` has figures.
//!
//! `bench_parts pool N` pushes N calls to three waiting lists in turn and takes them out again, over and over.
//! `bench_parts payload FILE CAPS ROUNDS` reads a file's bytes as a payload that goes with CAPS capabilities, ROUNDS times.
//! `bench_parts trace FILE` reads a trace and checks it, apart and together.
//! `bench_parts core OPEN WAITING EXPORTS [TRIPS [CYCLES]]` takes calls from one core to another and back, TRIPS times, and takes
//! shorter paths behind embargoes, CYCLES times, beside so many open questions, waiting calls and exports.
//! `bench_parts world ROUNDS [WORLDS]` takes calls over a `World`, which keeps the journal, ROUNDS times, in WORLDS worlds in turn.
//! `bench_parts script FILE` reads a script and plays it, and prints no trace.
//! Without arguments it does nothing.
#![tactic(auto)]

mod astray;
mod cores;
mod done;
mod payload;
mod pool;
mod script;
mod side;
mod trace;
mod world;

use anyhow::Result;
use cores::{Load, Rounds};
use std::env;
use std::env::Args;
use std::process::ExitCode;

fn main(rt: HostRuntime) -> Result<ExitCode> {
    let mut words = env::args(&rt)?;
    let _program = words.next();
    let Some(what) = words.next() else {
        return Ok(ExitCode::SUCCESS);
    };
    match what.as_str() {
        "pool" => measure_pool(&rt, &mut words),
        "payload" => measure_payload(&rt, &mut words),
        "trace" => measure_trace(&rt, &mut words),
        "core" => measure_core(&rt, &mut words),
        "world" => measure_world(&rt, &mut words),
        "script" => measure_script(&rt, &mut words),
        _ => usage(&rt),
    }
}

fn usage(rt: &impl Print) -> Result<ExitCode> {
    println!(rt;
        "usage: bench_parts pool N | bench_parts payload FILE CAPS ROUNDS | bench_parts trace FILE | bench_parts core OPEN WAITING EXPORTS [TRIPS [CYCLES]] | bench_parts world ROUNDS [WORLDS] | bench_parts script FILE"
    )?;
    Ok(ExitCode::from(2))
}

fn measure_pool(rt: &HostRuntime, words: &mut Args) -> Result<ExitCode> {
    let Some(count) = words.next() else {
        return usage(rt);
    };
    pool::measure(rt, count.as_str().parse()?)?;
    Ok(ExitCode::SUCCESS)
}

fn measure_payload(rt: &HostRuntime, words: &mut Args) -> Result<ExitCode> {
    let (Some(file), Some(caps), Some(rounds)) = (words.next(), words.next(), words.next()) else {
        return usage(rt);
    };
    let caps = caps.as_str().parse()?;
    let rounds = rounds.as_str().parse()?;
    payload::measure(rt, file.as_str(), caps, rounds)?;
    Ok(ExitCode::SUCCESS)
}

fn measure_trace(rt: &HostRuntime, words: &mut Args) -> Result<ExitCode> {
    let Some(file) = words.next() else {
        return usage(rt);
    };
    trace::measure(rt, file.as_str())?;
    Ok(ExitCode::SUCCESS)
}

fn measure_core(rt: &HostRuntime, words: &mut Args) -> Result<ExitCode> {
    let (Some(open), Some(waiting), Some(exports)) = (words.next(), words.next(), words.next())
    else {
        return usage(rt);
    };
    let load = Load {
        open: open.as_str().parse()?,
        waiting: waiting.as_str().parse()?,
        exports: exports.as_str().parse()?,
    };
    let rounds = Rounds {
        trips: count(words, cores::TRIPS)?,
        cycles: count(words, cores::CYCLES)?,
    };
    cores::measure(rt, load, rounds)?;
    Ok(ExitCode::SUCCESS)
}

/// The number that the next word is, or another if there is none.
fn count(words: &mut Args, other: u32) -> Result<u32> {
    match words.next() {
        Some(word) => Ok(word.as_str().parse()?),
        None => Ok(other),
    }
}

fn measure_world(rt: &HostRuntime, words: &mut Args) -> Result<ExitCode> {
    let Some(rounds) = words.next() else {
        return usage(rt);
    };
    let rounds = rounds.as_str().parse()?;
    world::measure(rt, rt.alloc(), rounds, count(words, 1)?)?;
    Ok(ExitCode::SUCCESS)
}

fn measure_script(rt: &HostRuntime, words: &mut Args) -> Result<ExitCode> {
    let Some(file) = words.next() else {
        return usage(rt);
    };
    script::measure(rt, file.as_str())?;
    Ok(ExitCode::SUCCESS)
}
