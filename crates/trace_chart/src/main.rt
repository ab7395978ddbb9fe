//! Draws a trace as a sequence diagram, in SVG on standard output (`docs/trace.md`, "A picture of a trace").
#![tactic(auto)]

use program_files::{ProgramFailure, unread};
use std::env;
use std::env::Args;
use std::fs::File;
use std::process::ExitCode;
use trace_chart_lib::{Failure, Options, draw_trace, status, write_help};

/// `trace_chart FILE [--ref V/N] [--from N] [--to N]`, or `trace_chart --help`; without arguments the trace is read from
/// standard input.
fn main(rt: HostRuntime) -> ExitCode {
    let mut words = match env::args(&rt) {
        Ok(words) => words,
        // a word that is not UTF-8 asks for nothing
        Err(error) => return ended(
            &rt,
            Err(Failure::Program(unread(&error, ProgramFailure::Usage))),
            "-",
        ),
    };
    let _program = words.next();
    let Some(name) = words.next() else {
        return ended(&rt, draw_input(&rt), "-");
    };
    if name.as_str() == "--help" {
        return ended(&rt, write_help(&mut rt.stdout()), "-");
    }
    let drawn = draw_named(&rt, name.as_str(), words);
    ended(&rt, drawn, name.as_str())
}

fn draw_named(rt: &HostRuntime, name: &str, words: Args) -> Result<(), Failure> {
    let mut chosen = Vec::new(rt.alloc());
    for word in words {
        chosen.push(word)?;
    }
    match Options::of(chosen.as_slice()) {
        Some(options) => draw_file(rt, name, options),
        None => Err(Failure::Program(ProgramFailure::Usage)),
    }
}

fn draw_input(rt: &HostRuntime) -> Result<(), Failure> {
    draw_trace(
        rt.alloc(),
        Options::new(),
        &mut rt.stdin(),
        &mut rt.stdout(),
    )
}

fn draw_file(rt: &HostRuntime, name: &str, options: Options) -> Result<(), Failure> {
    match File::open(rt, name) {
        Ok(mut file) => draw_trace(rt.alloc(), options, &mut file, &mut rt.stdout()),
        Err(error) => Err(Failure::Program(unread(&error, ProgramFailure::Unreadable))),
    }
}

fn ended(rt: &HostRuntime, drawn: Result<(), Failure>, name: &str) -> ExitCode {
    ExitCode::from(status(drawn, name, &mut rt.stderr()))
}
