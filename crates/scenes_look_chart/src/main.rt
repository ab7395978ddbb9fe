//! Captured conversations, each with its picture, and logs that are cut at each byte. A line of `stdin` is a case.
#![tactic(auto)]

use anyhow::{Result, bail};
use look_chart_lib::{Request, draw_log};
use look_names::Schema;
use rpc_look_lib::{Failure, read_schema, status};
use std::fs;

/// What the words of a line ask for, as of the program.
fn asked(rt: &HostRuntime, words: &[&str]) -> Result<Request> {
    let mut all = Vec::new(rt.alloc());
    for word in words {
        all.push(String::from_str(rt.alloc(), word)?)?;
    }
    match Request::of_words(rt.alloc(), all.as_slice())? {
        Some(request) => Ok(request),
        None => bail!("the words ask for nothing"),
    }
}

fn data(rt: &HostRuntime, name: &str, kind: &str) -> Result<Vec<u8>> {
    let path = format!(in rt.alloc(); "{name}.{kind}")?;
    Ok(fs::read(rt, path.as_str())?)
}

/// The schema of that name, if one is asked for.
fn schema(rt: &HostRuntime, name: Option<&str>) -> Result<Option<Schema>> {
    let Some(name) = name else {
        return Ok(None);
    };
    let bytes = fs::read(rt, name)?;
    match read_schema(rt.alloc(), &mut bytes.as_slice()) {
        Ok(schema) => Ok(Some(schema)),
        Err(_) => bail!("no schema: {name}"),
    }
}

/// Whether the picture of a log is the one that is wanted.
fn play_log(rt: &HostRuntime, name: &str, picture: &str, words: &[&str]) -> Result<()> {
    let log = data(rt, name, "log")?;
    let request = asked(rt, words)?;
    let names = schema(rt, request.schema.as_deref())?;
    let mut svg = Vec::new(rt.alloc());
    let drawn = draw_log(
        rt.alloc(),
        request.options,
        names,
        &mut log.as_slice(),
        &mut svg,
    );
    let status = status(drawn);
    if svg.as_slice() == data(rt, picture, "svg")?.as_slice() {
        println!(rt; "{picture}: as it is to be drawn, status {status}")?;
        return Ok(());
    }
    println!(rt; "{picture}: not as it is to be drawn, status {status}")?;
    let Ok(text) = std::str::from_utf8(svg.as_slice()) else {
        return Ok(());
    };
    print!(rt; "{text}")?;
    Ok(())
}

/// Whether what became of the beginning of an honest log is what may: a picture, or nothing of a log that is cut.
fn is_cut(drawn: Result<bool, Failure>, svg: &[u8]) -> bool {
    match drawn {
        Ok(is_broken) => !is_broken && svg.ends_with(b"</svg>\n"),
        Err(Failure::NoLog(_)) => svg.is_empty(),
        Err(_) => false,
    }
}

/// The log, cut at each byte.
fn play_cuts(rt: &HostRuntime, name: &str) -> Result<()> {
    let log = data(rt, name, "log")?;
    let mut rest = log.as_slice();
    for _ in 0..log.len() {
        let mut svg = Vec::new(rt.alloc());
        let options = asked(rt, &[])?.options;
        let drawn = draw_log(rt.alloc(), options, None, &mut { rest }, &mut svg);
        if !is_cut(drawn, svg.as_slice()) {
            let length = rest.len();
            println!(rt; "{name}: wrong when cut at {length}")?;
        }
        if let Some((_, before)) = rest.split_last() {
            rest = before;
        }
    }
    println!(rt; "{name}: cut at each byte")?;
    Ok(())
}

/// `log NAME PICTURE [WORD..]`, `cuts NAME`.
fn play(rt: &HostRuntime, line: &str) -> Result<()> {
    let words: Vec<&str> = line.split(' ').collect(rt.alloc())?;
    match words.as_slice() {
        ["log", name, picture, words @ ..] => play_log(rt, name, picture, words),
        ["cuts", name] => play_cuts(rt, name),
        _ => bail!("no case: {line}"),
    }
}

fn main(rt: HostRuntime) -> Result<()> {
    for line in rt.lines(rt.alloc()) {
        play(&rt, line?.as_str())?;
    }
    Ok(())
}
