//! Says what happened in a conversation of any two vats, from both directions as they passed a point (docs/looking.md).
#![tactic(auto)]

use look_names::Schema;
use program_files::{ProgramFailure, unread};
use rpc_look_lib::{
    Failure, Options, Source, look_log, look_two, read_schema, status, tell, unreadable,
};
use std::alloc::{AllocError, Global};
use std::env::Args;
use std::fs::File;
use std::process::ExitCode;
use std::{env, io};

/// `rpc_look [--schema FILE] [--payloads] [--only] [--json] [--at N] [--totals K] [--names A,B] [LOG | --two TO FROM]`; without a
/// file the log is read from standard input.
fn main(rt: HostRuntime) -> ExitCode {
    let mut words = match env::args(&rt) {
        Ok(words) => words,
        // a word that is not UTF-8 asks for nothing
        Err(error) => return ended(&rt, Err(unasked(&error)), "-"),
    };
    let _program = words.next();
    match asked(rt.alloc(), words) {
        Ok(Some(options)) => run(&rt, options),
        Ok(None) => ended(&rt, Err(Failure::Usage), "-"),
        Err(AllocError) => ended(&rt, Err(Failure::Memory), "-"),
    }
}

fn asked(alloc: Global, words: Args) -> Result<Option<Options>, AllocError> {
    let mut all = Vec::new(alloc);
    for word in words {
        all.push(word)?;
    }
    Options::of_words(alloc, all.as_slice())
}

/// Why the words of the program can't be had.
fn unasked(error: &io::Error) -> Failure {
    match unread(error, ProgramFailure::Usage) {
        ProgramFailure::Memory => Failure::Memory,
        _ => Failure::Usage,
    }
}

fn run(rt: &HostRuntime, mut options: Options) -> ExitCode {
    let Some(name) = std::mem::replace(&mut options.schema, None) else {
        return look(rt, options, None);
    };
    match schema_in(rt, name.as_str()) {
        Ok(schema) => look(rt, options, Some(schema)),
        Err(failure) => ended(rt, Err(failure), name.as_str()),
    }
}

fn schema_in(rt: &HostRuntime, name: &str) -> Result<Schema, Failure> {
    let mut file = open(rt, name)?;
    read_schema(rt.alloc(), &mut file)
}

fn look(rt: &HostRuntime, mut options: Options, schema: Option<Schema>) -> ExitCode {
    match std::mem::replace(&mut options.source, Source::Input) {
        Source::Input => {
            let looked = look_log(rt.alloc(), options, schema, &mut rt.stdin(), rt.stdout());
            ended(rt, looked, "-")
        }
        Source::Log(name) => {
            let looked = on_file(rt, options, schema, name.as_str());
            ended(rt, looked, name.as_str())
        }
        Source::Two(to, from) => {
            let looked = on_two(rt, options, schema, to.as_str(), from.as_str());
            ended(rt, looked, "one of the two files")
        }
    }
}

fn open(rt: &HostRuntime, name: &str) -> Result<File, Failure> {
    match File::open(rt, name) {
        Ok(file) => Ok(file),
        Err(error) => Err(unreadable(&error)),
    }
}

fn on_file(
    rt: &HostRuntime,
    options: Options,
    schema: Option<Schema>,
    name: &str,
) -> Result<bool, Failure> {
    let mut file = open(rt, name)?;
    look_log(rt.alloc(), options, schema, &mut file, rt.stdout())
}

fn on_two(
    rt: &HostRuntime,
    options: Options,
    schema: Option<Schema>,
    to: &str,
    from: &str,
) -> Result<bool, Failure> {
    let mut to = open(rt, to)?;
    let mut from = open(rt, from)?;
    look_two(rt.alloc(), options, schema, &mut to, &mut from, rt.stdout())
}

fn ended(rt: &HostRuntime, looked: Result<bool, Failure>, name: &str) -> ExitCode {
    if let Err(failure) = looked {
        let _told = tell(failure, name, &mut rt.stderr());
    }
    ExitCode::from(status(looked))
}
