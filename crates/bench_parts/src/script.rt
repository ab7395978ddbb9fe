//! How fast scripts are read and played.

use anyhow::Result;
use rpc_msg::ObjectId;
use script_language::{Names, Program, read_script};
use std::fs;
use std::rt::Clock;
use std::time::Instant;
use vat_trace_lib::play_lines;
use vat_world::World;

/// Prints how long a script's lines take to be read, and how long they take to be played, as `vat_trace run` does both: on
/// two new vats that both have bootstrap object 0. The journal is kept; no trace is made of it.
pub fn measure(rt: &HostRuntime, file: &str) -> Result<()> {
    let script = fs::read(rt, file)?;
    let alloc = rt.alloc();
    let start = Instant::now(rt)?;
    let lines = read_script(alloc, Program::Run, &script)?;
    let micros = start.elapsed(rt)?.as_micros();
    let count = lines.len() as u64;
    let speed = rate(count, micros);
    println!(rt; "read: {count} lines in {micros} us, {speed} a second")?;
    let start = Instant::now(rt)?;
    let mut world = World::new(alloc, Some(ObjectId(0)), Some(ObjectId(0)))?;
    let mut names = Names::new(alloc);
    play_lines(alloc, &mut world, &mut names, &lines)?;
    let micros = start.elapsed(rt)?.as_micros();
    let speed = rate(count, micros);
    let entries = world.journal().len();
    println!(rt; "played: {entries} entries in {micros} us, {speed} lines a second")?;
    Ok(())
}

/// How many lines a second these are.
fn rate(lines: u64, micros: u128) -> u128 {
    u128::from(lines) * 1_000_000 / micros.max(1)
}
