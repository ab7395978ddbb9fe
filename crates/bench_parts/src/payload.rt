//! How fast payloads are read.

use anyhow::Result;
use rpc_msg::{Payload, PayloadFault};
use std::alloc::Global;
use std::fs;
use std::rt::Clock;
use std::time::Instant;

/// Reads the bytes as a payload, so many times.
fn read(alloc: Global, bytes: &[u8], caps: u32, rounds: u32) -> Result<(), PayloadFault> {
    for _ in 0..rounds {
        Payload::read(alloc, bytes, caps)?;
    }
    Ok(())
}

/// Prints how fast a file's bytes are read as a payload.
pub fn measure(rt: &HostRuntime, file: &str, caps: u32, rounds: u32) -> Result<()> {
    let bytes = fs::read(rt, file)?;
    let start = Instant::now(rt)?;
    read(rt.alloc(), &bytes, caps, rounds)?;
    let micros = start.elapsed(rt)?.as_micros();
    let total = u128::from(bytes.len() as u64) * u128::from(rounds);
    let speed = total / micros.max(1);
    println!(rt; "payload read: {speed} MB/s in {rounds} rounds")?;
    Ok(())
}
