//! Plays a script over standard input and output, as a client of any Cap'n Proto server (docs/serving.md).
#![tactic(auto)]

use anyhow::{Result, bail};
use script_language::Line;
use std::fs::File;
use std::io::{BufReader, Write};
use std::process::ExitCode;
use std::{env, fs};
use vat_call_lib::{Ending, Player, read_lines};

/// The status if the words ask for nothing, the script is at fault, or input, output or memory fails.
const FAILED: u8 = 2;

/// `vat_call SCRIPT [FILE]`: plays a script, and writes what it is told to the file, or to standard error; there it says how it
/// ended too. The status is 0 if all was done, 1 if the vat went down before, and 2 if it failed.
fn main(rt: HostRuntime) -> ExitCode {
    match call(&rt) {
        Ok(ending) => {
            let _told = eprintln!(rt; "{ending}");
            if ending.is_done() {
                ExitCode::SUCCESS
            } else {
                ExitCode::FAILURE
            }
        }
        Err(error) => {
            let _told = eprintln!(rt; "vat_call: {error}");
            ExitCode::from(FAILED)
        }
    }
}

fn call(rt: &HostRuntime) -> Result<Ending> {
    let mut words = env::args(rt)?;
    let _program = words.next();
    let (Some(script), told, None) = (words.next(), words.next(), words.next()) else {
        bail!("usage: vat_call SCRIPT [FILE]");
    };
    let Ok(text) = fs::read(rt, script.as_str()) else {
        bail!("cannot read {script}");
    };
    let lines = read_lines(rt.alloc(), text.as_slice())?;
    let Some(name) = told else {
        return play(rt, &lines, rt.stderr());
    };
    match File::create(rt, name.as_str()) {
        Ok(told) => play(rt, &lines, told),
        Err(_) => bail!("cannot write {name}"),
    }
}

fn play<T: Write + Drop>(rt: &HostRuntime, lines: &[Line], told: T) -> Result<Ending> {
    let reader = BufReader::new(rt.alloc(), rt.stdin())?;
    let mut player = Player::new(rt.alloc(), reader, rt.stdout(), told)?;
    let ending = player.play(lines)?;
    Ok(ending)
}
