//! Captured conversations, each with what is to be said of it: honest ones of vats of several makes, broken ones, two files
//! without an order, and logs that are cut at each byte; as text, and as lines of JSON. One of them is told by the names of its
//! schema. A line of `stdin` is a case.
#![tactic(auto)]

use anyhow::{Result, anyhow, bail};
use look_names::Schema;
use rpc_dump_lib::{Form, dump};
use rpc_look_lib::{Failure, Options, look_log, look_two, read_schema, status};
use std::fs;

/// What the words of a line ask for, as of the program.
fn asked(rt: &HostRuntime, words: &[&str]) -> Result<Options> {
    let mut all = Vec::new(rt.alloc());
    for word in words {
        all.push(String::from_str(rt.alloc(), word)?)?;
    }
    match Options::of_words(rt.alloc(), all.as_slice())? {
        Some(options) => Ok(options),
        None => bail!("the words ask for nothing"),
    }
}

/// The schema that the words name, which is in a file beside the logs.
fn schema_of(rt: &HostRuntime, options: &Options) -> Result<Option<Schema>> {
    let Some(name) = &options.schema else {
        return Ok(None);
    };
    let bytes = data(rt, name.as_str(), "cgr")?;
    match read_schema(rt.alloc(), &mut bytes.as_slice()) {
        Ok(schema) => Ok(Some(schema)),
        Err(_) => bail!("no schema"),
    }
}

fn data(rt: &HostRuntime, name: &str, kind: &str) -> Result<Vec<u8>> {
    let path = format!(in rt.alloc(); "{name}.{kind}")?;
    Ok(fs::read(rt, path.as_str())?)
}

/// Whether what was said is what is to be said.
fn compare(rt: &HostRuntime, name: &str, kind: &str, said: &[u8], status: u8) -> Result<()> {
    let expected = data(rt, name, kind)?;
    if said == expected.as_slice() {
        println!(rt; "{name}: as it is to be said, status {status}")?;
        return Ok(());
    }
    println!(rt; "{name}: not as it is to be said, status {status}")?;
    let Ok(text) = std::str::from_utf8(said) else {
        return Ok(());
    };
    print!(rt; "{text}")?;
    Ok(())
}

fn play_log(rt: &HostRuntime, name: &str, kind: &str, log: &str, words: &[&str]) -> Result<()> {
    let log = data(rt, log, "log")?;
    let options = asked(rt, words)?;
    let schema = schema_of(rt, &options)?;
    let mut said = Vec::new(rt.alloc());
    let looked = look_log(rt.alloc(), options, schema, &mut log.as_slice(), &mut said);
    compare(rt, name, kind, said.as_slice(), status(looked))
}

fn play_two(rt: &HostRuntime, name: &str, files: &str) -> Result<()> {
    let to = data(rt, files, "to")?;
    let from = data(rt, files, "from")?;
    let mut said = Vec::new(rt.alloc());
    let looked = look_two(
        rt.alloc(),
        asked(rt, &[])?,
        None,
        &mut to.as_slice(),
        &mut from.as_slice(),
        &mut said,
    );
    compare(rt, name, "said", said.as_slice(), status(looked))
}

/// What `rpc_dump` says of what the client sent, by the names of a schema.
fn play_dump(rt: &HostRuntime, name: &str, files: &str, schema: &str) -> Result<()> {
    let to = data(rt, files, "to")?;
    let bytes = data(rt, schema, "cgr")?;
    let Ok(schema) = Schema::read(rt.alloc(), bytes.as_slice()) else {
        bail!("no schema");
    };
    let mut said = Vec::new(rt.alloc());
    let form = Form {
        trees: false,
        schema: Some(&schema),
    };
    let dumped = dump(rt.alloc(), false, &form, &mut to.as_slice(), &mut said);
    compare(
        rt,
        name,
        "dumped",
        said.as_slice(),
        rpc_dump_lib::status(dumped),
    )
}

/// What is to be said of the beginning of an honest log: nothing, or that it is cut.
fn is_cut(looked: Result<bool, Failure>) -> bool {
    match looked {
        Ok(is_broken) => !is_broken,
        Err(Failure::NoLog(_)) => true,
        Err(_) => false,
    }
}

/// The log, cut at each byte.
fn play_cuts(rt: &HostRuntime, name: &str) -> Result<()> {
    let log = data(rt, name, "log")?;
    let mut rest = log.as_slice();
    for _ in 0..log.len() {
        let mut said = Vec::new(rt.alloc());
        let looked = look_log(rt.alloc(), asked(rt, &[])?, None, &mut { rest }, &mut said);
        if !is_cut(looked) {
            let length = rest.len();
            println!(rt; "{name}: wrong when cut at {length}")?;
        }
        if let Some((_, before)) = rest.split_last() {
            rest = before;
        }
    }
    println!(rt; "{name}: cut at each byte")?;
    Ok(())
}

/// `log NAME`, `as NAME LOG WORD..`, `json NAME LOG WORD..`, `two NAME FILES`, `dump NAME FILES SCHEMA`, `cuts NAME`.
fn play(rt: &HostRuntime, line: &str) -> Result<()> {
    let words: Vec<&str> = line.split(' ').collect(rt.alloc())?;
    match words.as_slice() {
        ["log", name] => play_log(rt, name, "said", name, &[]),
        ["as", name, log, words @ ..] => play_log(rt, name, "said", log, words),
        ["json", name, log, words @ ..] => play_log(rt, name, "json", log, words),
        ["two", name, files] => play_two(rt, name, files),
        ["dump", name, files, schema] => play_dump(rt, name, files, schema),
        ["cuts", name] => play_cuts(rt, name),
        _ => Err(anyhow!("no case: {line}")),
    }
}

fn main(rt: HostRuntime) -> Result<()> {
    for line in rt.lines(rt.alloc()) {
        play(&rt, line?.as_str())?;
    }
    Ok(())
}
