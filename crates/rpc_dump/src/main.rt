//! Says what a captured conversation says: a line of JSON for each message (docs/messages.md).
#![tactic(auto)]

ghost use Rattle.std.specs.Prelude.{IfOk};
ghost use Rattle.look_names.specs.Names.{IsIndexed};
ghost use Rattle.rpc_dump_lib.specs.Named.{IsNamed};

use look_names::{Schema, SchemaError};
use program_faults::ShownFault;
use program_files::{FAILED, ProgramFailure, unread};
use rpc_dump_lib::{Failure, Form, Options, dump, status, tell};
use std::alloc::AllocError;
use std::env::Args;
use std::fs::File;
use std::io::Write;
use std::process::ExitCode;
use std::{env, fs, io};

/// `rpc_dump [--schema FILE] [--hex] [--payloads] [FILE]`; without a file the bytes are read from standard input.
fn main(rt: HostRuntime) -> ExitCode {
    let mut words = match env::args(&rt) {
        Ok(words) => words,
        // a word that is not UTF-8 asks for nothing
        Err(error) => return ended(
            &rt,
            Err(Failure::Program(unread(&error, ProgramFailure::Usage))),
            "-",
        ),
    };
    let _program = words.next();
    match collect(&rt, words) {
        Ok(words) => run(&rt, words.as_slice()),
        Err(AllocError) => ended(&rt, Err(Failure::Program(ProgramFailure::Memory)), "-"),
    }
}

fn collect(rt: &HostRuntime, words: Args) -> Result<Vec<String>, AllocError> {
    let mut all = Vec::new(rt.alloc());
    for word in words {
        all.push(word)?;
    }
    Ok(all)
}

/// What the words ask for.
#[derive(Clone, Copy, Drop)]
struct Asked<'w> {
    options: Options,
    /// The file of a schema.
    schema: Option<&'w str>,
    /// The file that is read.
    file: Option<&'w str>,
}

impl<'w> Asked<'w> {
    /// With what the first word asks for, and its value if it has one; and what stands behind them. `None` if it asks for
    /// nothing.
    fn with(self, words: &'w [String]) -> Option<(Asked<'w>, &'w [String])> {
        let (word, behind) = words.split_first()?;
        if let Some(options) = self.options.with(word.as_str()) {
            return Some((Asked { options, ..self }, behind));
        }
        if word.as_str() == "--schema" {
            let (name, behind) = behind.split_first()?;
            let schema = Some(name.as_str());
            return Some((Asked { schema, ..self }, behind));
        }
        if word.as_str().starts_with("--") || !behind.is_empty() {
            return None;
        }
        let file = Some(word.as_str());
        Some((Asked { file, ..self }, behind))
    }
}

/// What all words ask for: options, and the file last. `None` if one asks for nothing.
fn asked_by(words: &[String]) -> Option<Asked<'_>> {
    let mut asked = Asked {
        options: Options::new(),
        schema: None,
        file: None,
    };
    let mut rest = words;
    for _ in 0..words.len() {
        if rest.is_empty() {
            break;
        }
        (asked, rest) = asked.with(rest)?;
    }
    Some(asked)
}

fn run(rt: &HostRuntime, words: &[String]) -> ExitCode {
    let Some(asked) = asked_by(words) else {
        return ended(rt, Err(Failure::Program(ProgramFailure::Usage)), "-");
    };
    let trees = asked.options.payloads;
    let Some(name) = asked.schema else {
        let schema = None;
        return dump_in(rt, &asked, &Form { trees, schema });
    };
    match schema_in(rt, name) {
        Ok(Ok(schema)) => {
            let schema = Some(&schema);
            dump_in(rt, &asked, &Form { trees, schema })
        }
        Ok(Err(SchemaError::Memory)) => {
            ended(rt, Err(Failure::Program(ProgramFailure::Memory)), name)
        }
        Ok(Err(error)) => no_schema(rt, error),
        Err(failure) => ended(rt, Err(failure), name),
    }
}

/// The schema in a file.
fn schema_in(rt: &HostRuntime, name: &str) -> Result<Result<Schema, SchemaError>, Failure>
    ensures { IfOk result (λ read. IfOk read IsIndexed) }
{
    match fs::read(rt, name) {
        Ok(bytes) => Ok(Schema::read(rt.alloc(), bytes.as_slice())),
        Err(error) => Err(unreadable(&error)),
    }
}

fn unreadable(error: &io::Error) -> Failure {
    Failure::Program(unread(error, ProgramFailure::Unreadable))
}

/// Says why a file is no schema.
fn no_schema(rt: &HostRuntime, error: SchemaError) -> ExitCode {
    let _told = writeln!(rt.stderr(), "the schema: {error}");
    ExitCode::from(FAILED)
}

/// Dumps what is asked for, in that form.
fn dump_in(rt: &HostRuntime, asked: &Asked<'_>, form: &Form<'_>) -> ExitCode
    requires { IsNamed form.now }
{
    let hex = asked.options.hex;
    let Some(name) = asked.file else {
        let dumped = dump(rt.alloc(), hex, form, &mut rt.stdin(), &mut rt.stdout());
        return ended(rt, dumped, "-");
    };
    let dumped = on_file(rt, hex, form, name);
    ended(rt, dumped, name)
}

fn on_file(rt: &HostRuntime, hex: bool, form: &Form<'_>, name: &str) -> Result<(), Failure>
    requires { IsNamed form.now }
{
    match File::open(rt, name) {
        Ok(mut file) => dump(rt.alloc(), hex, form, &mut file, &mut rt.stdout()),
        Err(error) => Err(unreadable(&error)),
    }
}

fn ended(rt: &HostRuntime, dumped: Result<(), Failure>, name: &str) -> ExitCode {
    if let Err(failure) = dumped {
        let _told = tell(failure, name, &mut rt.stderr());
        let _explained = explain(failure, &mut rt.stderr());
    }
    ExitCode::from(status(dumped))
}

/// Says the name and the meaning of a fault, on a line of its own.
fn explain<E: Write>(failure: Failure, err: &mut E) -> io::Result<()> {
    match failure {
        Failure::Message(_, fault) => writeln!(err, "fault {}", ShownFault(fault)),
        _ => Ok(()),
    }
}
