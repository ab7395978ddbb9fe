//! Replays recorded conversations with peers of C++ (docs/serving.md, "Recorded conversations"). The lines of NAME.script are played
//! while NAME.in comes, cut in several ways. What the vat sends has to be NAME.out, and its events NAME.told.
#![tactic(auto)]

use anyhow::{Result, bail};
use std::io::{BufReader, Write};
use std::{env, fs};
use vat_call_lib::{Player, read_lines};

/// How many bytes come at once at most.
const PIECES: [usize; 5] = [1, 7, 64, 100, 65_536];

/// `scenes_conversations NAME..`: replays these, and says of each that it went as it was recorded.
fn main(rt: HostRuntime) -> Result<()> {
    let mut names = env::args(&rt)?;
    let _program = names.next();
    for name in names {
        for piece in PIECES {
            replay(&rt, name.as_str(), piece)?;
        }
        println!(rt; "{name}: as it was recorded")?;
    }
    Ok(())
}

fn replay(rt: &HostRuntime, name: &str, piece: usize) -> Result<()> {
    let script = kept(rt, name, "script")?;
    let lines = read_lines(rt.alloc(), script.as_slice())?;
    let came = kept(rt, name, "in")?;
    let reader = BufReader::with_capacity(rt.alloc(), piece, came.as_slice())?;
    let mut sent = Vec::new(rt.alloc());
    let mut told = Vec::new(rt.alloc());
    let mut player = Player::new(rt.alloc(), reader, &mut sent, &mut told)?;
    let ending = player.play(&lines)?;
    drop(player);
    writeln!(told, "{ending}")?;
    if told.as_slice() != kept(rt, name, "told")?.as_slice() {
        bail!("{name}: something else is told in pieces of {piece}");
    }
    if sent.as_slice() != kept(rt, name, "out")?.as_slice() {
        bail!("{name}: something else is sent in pieces of {piece}");
    }
    Ok(())
}

// A file of a conversation.
fn kept(rt: &HostRuntime, name: &str, what: &str) -> Result<Vec<u8>> {
    let path = format!(in rt.alloc(); "{name}.{what}")?;
    Ok(fs::read(rt, path.as_str())?)
}
