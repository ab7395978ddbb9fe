//! Plays scripts on two vats, in one thread or two, and prints what happens; checks, shows and upgrades traces.
//!
//! What it does with the word `pair` stands here, and what it does in one thread in `vat_trace_lib`:
//!
//! - `vats.rt`: two new vats at the two ends of a link. `work.rt` works them by the lines of a script; `verdicts.rt`: which
//!   fault the lines have then, and `memory.rt` whether a vat lacked memory.
//! - `trace.rt`: the trace of two vats that were worked, and that of a script. `program.rt`: the word without the handles.
#![tactic(auto)]

mod memory;
mod program;
#[cfg(test)]
mod tests;
mod trace;
mod vats;
mod verdicts;
mod work;

use crate::program::play_pair;
use program_files::{ProgramFailure, unread};
use std::env;
use std::fs::File;
use std::process::ExitCode;
use std::sync::Wait;
use std::thread::Threads;
use std::time::Clock;
use vat_trace_lib::{Failure, Word, play, status};

/// `vat_trace run|pair|check|show|upgrade FILE`; without arguments the script is read from standard input.
fn main(rt: HostRuntime) -> ExitCode {
    let mut words = match env::args(&rt) {
        Ok(words) => words,
        // a word that is not UTF-8 asks for nothing
        Err(error) => return ended(
            &rt,
            Err(Failure::Program(unread(&error, ProgramFailure::Usage))),
            "-",
        ),
    };
    let _program = words.next();
    let Some(word) = words.next() else {
        return ended(&rt, on_input(&rt), "-");
    };
    let Some(name) = words.next() else {
        return misused(&rt);
    };
    if words.next().is_some() {
        return misused(&rt);
    }
    let played = match word.as_str() {
        "pair" => on_threads(&rt, &rt, name.as_str()),
        word => on_file(&rt, word, name.as_str()),
    };
    ended(&rt, played, name.as_str())
}

fn on_input(rt: &HostRuntime) -> Result<u8, Failure> {
    play(rt.alloc(), "run", &mut rt.stdin(), &mut rt.stdout())
}

fn on_file(rt: &HostRuntime, word: &str, name: &str) -> Result<u8, Failure> {
    if Word::of(word).is_none() {
        return Err(Failure::Program(ProgramFailure::Usage));
    }
    match File::open(rt, name) {
        Ok(mut file) => play(rt.alloc(), word, &mut file, &mut rt.stdout()),
        Err(error) => Err(Failure::Program(unread(&error, ProgramFailure::Unreadable))),
    }
}

/// Plays a file on two threads.
fn on_threads<R: Threads + Wait + Clock + Sync>(
    threads: &R,
    rt: &HostRuntime,
    name: &str,
) -> Result<u8, Failure> {
    match File::open(rt, name) {
        Ok(mut file) => play_pair(rt.alloc(), threads, threads, &mut file, &mut rt.stdout()),
        Err(error) => Err(Failure::Program(unread(&error, ProgramFailure::Unreadable))),
    }
}

fn misused(rt: &HostRuntime) -> ExitCode {
    ended(rt, Err(Failure::Program(ProgramFailure::Usage)), "-")
}

fn ended(rt: &HostRuntime, played: Result<u8, Failure>, name: &str) -> ExitCode {
    ExitCode::from(status(played, name, &mut rt.stderr()))
}
