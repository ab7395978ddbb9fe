ghost use Rattle.std.specs.Prelude.{◌≡◌, ◌+◌, IfErr, OnOk, IsTrue, length, map};
ghost use Rattle.std.specs.Bool.{MatchBool};
ghost use Rattle.std.specs.Str.{IsAscii, IsUtf8};
ghost use Rattle.script_language.specs.Lines.{line_of};
ghost use Rattle.script_language.specs.Scripts.{ReadsScript, ReadsLines, AreWordsOf, IsAdded, IsAtFault, lines_from, texts_of};

use crate::fault::{ReadFault, ScriptFault};
use crate::line::{Line, Program};
use crate::parts::next_line;
use rpc_msg::Items;
use std::alloc::Global;
use std::str;

/// The lines of a script for that program, which newlines part; the last one needs none behind it. All of it is read
/// before it is answered. `NotText` if the bytes are not UTF-8, else `Line` with the number of the first line that is
/// none, and what is wrong with it; `Memory` if a growth was refused. The work grows with the length.
pub fn read_script(
    alloc: Global,
    program: Program,
    script: &[u8],
) -> Result<Items<Line>, ScriptFault>
    ensures { ReadsScript program script.now result }
{
    if !is_text(script) {
        return Err(ScriptFault::NotText);
    }
    read_lines(alloc, program, script)
}

/// Whether the bytes are UTF-8. Those of most scripts are ASCII, which is seen sooner.
fn is_text(bytes: &[u8]) -> bool
    ensures { MatchBool result (IsUtf8 bytes.now) (¬ (IsUtf8 bytes.now)) }
{
    is_ascii(bytes) || str::from_utf8(bytes).is_ok()
}

/// Whether each byte is ASCII: all are looked at, many at a time.
fn is_ascii(bytes: &[u8]) -> bool
    ensures { IsTrue result → IsAscii bytes.now }
{
    let mut ascii = true;
    for byte in bytes {
        ascii &= *byte < 128;
    }
    ascii
}

fn read_lines(alloc: Global, program: Program, script: &[u8]) -> Result<Items<Line>, ScriptFault>
    ensures { ReadsLines (lines_from program 1 (texts_of script.now)) result }
{
    let mut lines = Items::new(alloc);
    let mut words = Vec::new(alloc);
    let mut rest = script;
    loop {
        let next = match next_line(&mut words, rest) {
            Ok(next) => next,
            Err(_) => return Err(ScriptFault::Memory),
        };
        let Some((text, behind)) = next else {
            break;
        };
        match add_line(alloc, program, text, words.as_slice(), &mut lines) {
            Ok(()) => {}
            Err(fault) => return Err(fault),
        }
        rest = behind;
    }
    match add_line(alloc, program, rest, words.as_slice(), &mut lines) {
        Ok(()) => return Ok(lines),
        Err(fault) => return Err(fault),
    }
}

/// Puts what a text says behind the lines before it.
fn add_line(
    alloc: Global,
    program: Program,
    text: &[u8],
    words: &[&[u8]],
    lines: &mut Items<Line>,
) -> Result<(), ScriptFault>
    requires { AreWordsOf text.now (map (λ word. word.now) words.now) }
    ensures added { OnOk result (IsAdded (line_of program text.now) lines.old lines.new) }
    ensures fails { IfErr result (λ fault. IsAtFault (line_of program text.now) (length lines.old + 1) fault) }
{
    let Some(number) = lines.len().checked_add(1) else {
        return Err(ScriptFault::Memory);
    };
    let line = match Line::of_words(alloc, program, text, words) {
        Ok(line) => line,
        Err(ReadFault::Memory) => return Err(ScriptFault::Memory),
        Err(ReadFault::Line(fault)) => return Err(ScriptFault::Line(number, fault)),
    };
    match lines.push(line) {
        Ok(()) => return Ok(()),
        Err(_) => return Err(ScriptFault::Memory),
    }
}
