//! Draws a conversation of any two vats as a sequence diagram, in SVG on standard output (`docs/looking.md`, "A picture").
#![tactic(auto)]

use look_chart_lib::{Request, draw_log, tell, write_help};
use look_names::Schema;
use program_files::{ProgramFailure, unread};
use rpc_look_lib::{Failure, read_schema, status, unreadable};
use std::alloc::AllocError;
use std::env::Args;
use std::fs::File;
use std::process::ExitCode;
use std::{env, io};

/// `look_chart [--schema FILE] [--from N] [--to N] [LOG]`, or `look_chart --help`; without a file the log is read from standard
/// input.
fn main(rt: HostRuntime) -> ExitCode {
    let mut words = match env::args(&rt) {
        Ok(words) => words,
        // a word that is not UTF-8 asks for nothing
        Err(error) => return ended(&rt, Err(unasked(&error)), "-"),
    };
    let _program = words.next();
    match asked(&rt, words) {
        Ok(Some(request)) => run(&rt, request),
        Ok(None) => help(&rt),
        Err(failure) => ended(&rt, Err(failure), "-"),
    }
}

/// Why the words of the program can't be had.
fn unasked(error: &io::Error) -> Failure {
    match unread(error, ProgramFailure::Usage) {
        ProgramFailure::Memory => Failure::Memory,
        _ => Failure::Usage,
    }
}

/// What the words ask for; none for help.
fn asked(rt: &HostRuntime, words: Args) -> Result<Option<Request>, Failure> {
    let mut all = Vec::new(rt.alloc());
    for word in words {
        all.push(word).map_err(AllocError::from)?;
    }
    if let [word] = all.as_slice()
        && word.as_str() == "--help"
    {
        return Ok(None);
    }
    match Request::of_words(rt.alloc(), all.as_slice())? {
        Some(request) => Ok(Some(request)),
        None => Err(Failure::Usage),
    }
}

fn help(rt: &HostRuntime) -> ExitCode {
    match write_help(&mut rt.stdout()) {
        Ok(()) => ExitCode::from(0),
        Err(failure) => ended(rt, Err(failure), "-"),
    }
}

fn run(rt: &HostRuntime, mut request: Request) -> ExitCode {
    let Some(name) = std::mem::replace(&mut request.schema, None) else {
        return draw(rt, request, None);
    };
    match schema_in(rt, name.as_str()) {
        Ok(schema) => draw(rt, request, Some(schema)),
        Err(failure) => ended(rt, Err(failure), name.as_str()),
    }
}

fn open(rt: &HostRuntime, name: &str) -> Result<File, Failure> {
    match File::open(rt, name) {
        Ok(file) => Ok(file),
        Err(error) => Err(unreadable(&error)),
    }
}

fn schema_in(rt: &HostRuntime, name: &str) -> Result<Schema, Failure> {
    let mut file = open(rt, name)?;
    read_schema(rt.alloc(), &mut file)
}

fn draw(rt: &HostRuntime, request: Request, schema: Option<Schema>) -> ExitCode {
    let Request {
        options,
        schema: _,
        log,
    } = request;
    let Some(name) = log else {
        let out = &mut rt.stdout();
        let drawn = draw_log(rt.alloc(), options, schema, &mut rt.stdin(), out);
        return ended(rt, drawn, "-");
    };
    let mut file = match open(rt, name.as_str()) {
        Ok(file) => file,
        Err(failure) => return ended(rt, Err(failure), name.as_str()),
    };
    let drawn = draw_log(rt.alloc(), options, schema, &mut file, &mut rt.stdout());
    ended(rt, drawn, name.as_str())
}

fn ended(rt: &HostRuntime, drawn: Result<bool, Failure>, name: &str) -> ExitCode {
    if let Err(failure) = drawn {
        let _told = tell(failure, name, &mut rt.stderr());
    }
    ExitCode::from(status(drawn))
}
