//! How fast traces are read and checked.
use anyhow::Result;
use rpc_check::check;
use rpc_journal::JournalEntry;
use rpc_msg::Memory;
use std::alloc::Global;
use std::fs;
use std::rt::Clock;
use std::time::Instant;
use trace_file::{Follower, check_trace, follow};

/// The entries of a trace, kept. Nothing is claimed of them.
#[derive(Drop)]
struct Entries {
    entries: Vec<JournalEntry>,
}

impl Follower for Entries {
    ghost takes = { λ old e new. Unit };

    fn take(&mut self, alloc: Global, entry: JournalEntry) -> Result<(), Memory> {
        match self.entries.push(entry) {
            Ok(()) => Ok(()),
            Err(_) => Err(Memory),
        }
    }
}

/// Prints how long a trace's lines take to be read as entries, how long the entries take to be checked, and how long
/// both take if no entry is kept.
pub fn measure(rt: &HostRuntime, file: &str) -> Result<()> {
    let trace = fs::read_to_string(rt, file)?;
    println!(rt; "trace: {} bytes", trace.len())?;
    measure_apart(rt, trace.as_str())?;
    let start = Instant::now(rt)?;
    check_trace(rt.alloc(), trace.as_str())?;
    let micros = start.elapsed(rt)?.as_micros();
    println!(rt; "read and checked, none kept: {micros} us")?;
    Ok(())
}

fn measure_apart(rt: &HostRuntime, trace: &str) -> Result<()> {
    let mut kept = Entries {
        entries: Vec::new(rt.alloc()),
    };
    let start = Instant::now(rt)?;
    follow(rt.alloc(), trace, &mut kept)?;
    let micros = start.elapsed(rt)?.as_micros();
    println!(rt; "read: {} entries in {micros} us", kept.entries.len())?;
    let start = Instant::now(rt)?;
    check(rt.alloc(), kept.entries.as_slice())?;
    let micros = start.elapsed(rt)?.as_micros();
    println!(rt; "checked: {micros} us")?;
    Ok(())
}
