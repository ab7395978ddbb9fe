ghost use Rattle.std.specs.Prelude.{◌≡◌, map};
ghost use Rattle.script_language.specs.Lines.{Reads, line_of_words, deliver_of, vat_line, act_of, take_of, take_line, got_of, got_line, alone};

use crate::commands::read_command;
use crate::fault::{LineFault, ReadFault};
use crate::line::{GotLine, Line, TakeLine};
use crate::name::Name;
use crate::words::{is_word, read_u32, read_u64, read_vat};
use rpc_msg::{TaskId, Vat};
use std::alloc::Global;

/// What the words of a line say together.
pub(crate) fn read_words(alloc: Global, words: &[&[u8]]) -> Result<Line, ReadFault>
    ensures { Reads (line_of_words (map (λ word. word.now) words.now)) result }
{
    let [first, rest @ ..] = words else {
        return Err(ReadFault::Line(LineFault::Count));
    };
    if is_word("deliver", first) {
        let line = read_deliver(rest)?;
        return Ok(line);
    }
    if is_word("tables", first) {
        let line = read_alone(Line::Tables, rest)?;
        return Ok(line);
    }
    let vat = read_vat(first)?;
    read_vat_line(alloc, vat, rest)
}

fn read_deliver(rest: &[&[u8]]) -> Result<Line, LineFault>
    ensures { result ≡ deliver_of (map (λ word. word.now) rest.now) }
{
    let [vat] = rest else {
        return Err(LineFault::Count);
    };
    let vat = read_vat(vat)?;
    Ok(Line::Deliver(vat))
}

/// The line, if no word follows.
fn read_alone(line: Line, rest: &[&[u8]]) -> Result<Line, LineFault>
    ensures { result ≡ alone line (map (λ word. word.now) rest.now) }
{
    match rest {
        [] => Ok(line),
        _ => Err(LineFault::Count),
    }
}

fn read_vat_line(alloc: Global, vat: Vat, rest: &[&[u8]]) -> Result<Line, ReadFault>
    ensures { Reads (vat_line vat (map (λ word. word.now) rest.now)) result }
{
    let [word, rest @ ..] = rest else {
        return Err(ReadFault::Line(LineFault::Count));
    };
    read_act(alloc, vat, word, rest)
}

/// The word that says what a vat does, and what follows it.
fn read_act(alloc: Global, vat: Vat, word: &[u8], rest: &[&[u8]]) -> Result<Line, ReadFault>
    ensures { Reads (act_of vat word.now (map (λ word. word.now) rest.now)) result }
{
    if is_word("take", word) {
        let line = read_take(vat, rest)?;
        return Ok(line);
    }
    if is_word("got", word) {
        let line = read_got(vat, rest)?;
        return Ok(line);
    }
    if is_word("turn", word) {
        let line = read_alone(Line::Turn(vat), rest)?;
        return Ok(line);
    }
    let command = read_command(alloc, word, rest)?;
    Ok(Line::Command(vat, command))
}

fn read_take(vat: Vat, rest: &[&[u8]]) -> Result<Line, LineFault>
    ensures { result ≡ take_of vat (map (λ word. word.now) rest.now) }
{
    match rest {
        [name, task, index] => read_take_line(vat, name, task, index),
        _ => Err(LineFault::Count),
    }
}

fn read_take_line(vat: Vat, name: &[u8], task: &[u8], index: &[u8]) -> Result<Line, LineFault>
    ensures { result ≡ take_line vat name.now task.now index.now }
{
    let name = Name::of_word(name)?;
    let task = read_u64(task)?;
    let index = read_u32(index)?;
    let task = TaskId(task);
    Ok(Line::Take(vat, TakeLine { name, task, index }))
}

fn read_got(vat: Vat, rest: &[&[u8]]) -> Result<Line, LineFault>
    ensures { result ≡ got_of vat (map (λ word. word.now) rest.now) }
{
    match rest {
        [name, call, index] => read_got_line(vat, name, call, index),
        _ => Err(LineFault::Count),
    }
}

fn read_got_line(vat: Vat, name: &[u8], call: &[u8], index: &[u8]) -> Result<Line, LineFault>
    ensures { result ≡ got_line vat name.now call.now index.now }
{
    let name = Name::of_word(name)?;
    let call = Name::of_word(call)?;
    let index = read_u32(index)?;
    Ok(Line::Got(vat, GotLine { name, call, index }))
}
