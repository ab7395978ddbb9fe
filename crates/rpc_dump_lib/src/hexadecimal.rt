//! A conversation in hexadecimal, a frame a line, read and said.
ghost use Rattle.std.specs.Prelude.{◌≡◌, ◌⊎◌, ◌<◌, ℕ, List, length, IfSome, IfOk, IfErr};
ghost use Rattle.std.specs.List.{position, before_first, after_first};
ghost use Rattle.program_files.specs.Texts.{IsInput};
ghost use Rattle.rpc_dump_lib.specs.Conversations.{IsLines, LinesStop, Says, digits_line, is_newline};
ghost use Rattle.rpc_dump_lib.specs.Named.{IsNamed};

use crate::failure::Failure;
use crate::form::Form;
use crate::frames::say_digits;
use program_files::{ProgramFailure, unread};
use std::alloc::Global;
use std::io::{Read, Write};

/// Says the frame of each line, or its fault.
pub fn dump_hex<R: Read, W: Write>(
    alloc: Global,
    form: &Form<'_>,
    reader: &mut R,
    out: &mut W,
) -> Result<(), Failure>
    requires named { IsNamed form.now }
    ensures { (input : List ℕ) × IsInput (R.remaining reader.old) input × Says (IsLines input) (digits_line form.now) LinesStop (W.contents out.old) (W.contents out.new) result }
{
    let input = read_all(alloc, reader)?;
    say_lines(alloc, form, input.as_slice(), out)
}

fn read_all<R: Read>(alloc: Global, reader: &mut R) -> Result<Vec<u8>, Failure>
    ensures all { IfOk result (λ input. IsInput (R.remaining reader.old) input.items) }
    ensures fails { IfErr result (λ why. (why ≡ Failure.Program ProgramFailure.Memory) ⊎ (why ≡ Failure.Program ProgramFailure.Unreadable)) }
{
    let mut input = Vec::new(alloc);
    match reader.read_to_end(&mut input) {
        Ok(_) => Ok(input),
        Err(error) => Err(Failure::Program(unread(&error, ProgramFailure::Unreadable))),
    }
}

/// Where the first newline is.
fn newline_in(input: &[u8]) -> Option<usize>
    ensures first { result ≡ position is_newline input.now }
    ensures within { IfSome result (λ at. at < length input.now) }
{
    input.iter().position(|byte| *byte == b'\n')
}

/// The first line, and what is left behind its newline.
fn split_line(input: &[u8]) -> (&[u8], &[u8])
    ensures line { result.0.now ≡ before_first is_newline input.now }
    ensures left { result.1.now ≡ after_first is_newline input.now }
    ensures less { 0 < length input.now → length result.1.now < length input.now }
{
    match newline_in(input) {
        Some(at) => (&input[..at], &input[at + 1..]),
        None => (input, &[]),
    }
}

fn say_lines<W: Write>(
    alloc: Global,
    form: &Form<'_>,
    input: &[u8],
    out: &mut W,
) -> Result<(), Failure>
    requires named { IsNamed form.now }
    ensures { Says (IsLines input.now) (digits_line form.now) LinesStop (W.contents out.old) (W.contents out.new) result }
{
    let mut number: u64 = 1;
    let mut rest = input;
    'lines: while !rest.is_empty() {
        let (line, left) = split_line(rest);
        say_digits(alloc, form, line, number, out)?;
        number = number.saturating_add(1);
        rest = left;
    }
    Ok(())
}
