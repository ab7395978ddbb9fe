//! The lines of a script for one vat.
ghost use Rattle.std.specs.Prelude.{◌≡◌, ◌<◌, IfOk, IfErr, IfSome, None, length};
ghost use Rattle.vat_call_lib.specs.Scripts.{HasNoLines, Says, first_other, is_other};

use crate::failure::{BrokenOff, Failure};
use rpc_msg::{Items, Vat};
use script_language::{Line, Program, ScriptFault, read_script};
use std::alloc::Global;

/// The lines of a script, which are those that a script for two threads has, of vat `a` alone. `NotText` if the bytes are not
/// UTF-8, `Line` with the first line that is none, or else `OtherVat` with the first that is for `b`; `BrokenOff`
/// if a growth was refused.
pub fn read_lines(alloc: Global, script: &[u8]) -> Result<Items<Line>, Failure>
    ensures says { IfOk result (Says script.now) }
    ensures own { IfOk result (λ lines. first_other lines ≡ None) }
    ensures fails { IfErr result (HasNoLines script.now) }
{
    let lines = match read_script(alloc, Program::Pair, script) {
        Ok(lines) => lines,
        Err(ScriptFault::Memory) => return Err(Failure::BrokenOff(BrokenOff::Memory)),
        Err(ScriptFault::NotText) => return Err(Failure::NotText),
        Err(ScriptFault::Line(number, fault)) => return Err(Failure::Line(number, fault)),
    };
    // Each arm returns by itself: where arms join, what each says is lost to the clauses.
    match first_other(&lines) {
        Some(at) => return Err(Failure::OtherVat(at + 1)),
        None => return Ok(lines),
    }
}

// Where the first line of vat `b` is.
fn first_other(lines: &[Line]) -> Option<usize>
    ensures first { result ≡ first_other lines.now }
    ensures within { IfSome result (λ at. at < length lines.now) }
{
    lines.iter().position(|line| is_other(line))
}

fn is_other(line: &Line) -> bool
    ensures { result ≡ is_other line.now }
{
    match line {
        Line::Turn(vat) | Line::Deliver(vat) => *vat == Vat::B,
        Line::Take(vat, _) | Line::Got(vat, _) | Line::Command(vat, _) => *vat == Vat::B,
        Line::Skip | Line::Tables => false,
    }
}
