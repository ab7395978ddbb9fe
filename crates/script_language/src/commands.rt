ghost use Rattle.std.specs.Prelude.{◌≡◌, map};
ghost use Rattle.script_language.specs.Lines.{Reads, command_of, plain_of, ending_of, host_of, one_name, two_names, field_of, field_line, call_of, call_line, answer_of, fail_of};

use crate::fault::{LineFault, ReadFault};
use crate::line::{CallLine, FieldLine, LineCommand};
use crate::name::Name;
use crate::words::{is_word, read_caps, read_path, read_u16, read_u64};
use rpc_msg::{ObjectId, TaskId};
use std::alloc::Global;

/// The word that says what is asked of a vat, and what follows it.
pub(crate) fn read_command(
    alloc: Global,
    word: &[u8],
    rest: &[&[u8]],
) -> Result<LineCommand, ReadFault>
    ensures { Reads (command_of word.now (map (λ word. word.now) rest.now)) result }
{
    if is_word("field", word) {
        return read_field(alloc, rest);
    }
    if is_word("call", word) {
        return read_call(alloc, rest);
    }
    if is_word("answer", word) {
        return read_answer(alloc, rest);
    }
    let command = read_plain(word, rest)?;
    Ok(command)
}

fn read_field(alloc: Global, rest: &[&[u8]]) -> Result<LineCommand, ReadFault>
    ensures { Reads (field_of (map (λ word. word.now) rest.now)) result }
{
    match rest {
        [name, call, path] => read_field_line(alloc, name, call, path),
        _ => Err(ReadFault::Line(LineFault::Count)),
    }
}

fn read_field_line(
    alloc: Global,
    name: &[u8],
    call: &[u8],
    path: &[u8],
) -> Result<LineCommand, ReadFault>
    ensures { Reads (field_line name.now call.now path.now) result }
{
    let name = Name::of_word(name)?;
    let call = Name::of_word(call)?;
    let path = read_path(alloc, path)?;
    Ok(LineCommand::Field(FieldLine { name, call, path }))
}

fn read_call(alloc: Global, rest: &[&[u8]]) -> Result<LineCommand, ReadFault>
    ensures { Reads (call_of (map (λ word. word.now) rest.now)) result }
{
    match rest {
        [call, reference, interface, method, caps] => {
            read_call_line(alloc, call, reference, interface, method, caps)
        }
        _ => Err(ReadFault::Line(LineFault::Count)),
    }
}

fn read_call_line(
    alloc: Global,
    call: &[u8],
    reference: &[u8],
    interface: &[u8],
    method: &[u8],
    caps: &[u8],
) -> Result<LineCommand, ReadFault>
    ensures { Reads (call_line call.now reference.now interface.now method.now caps.now) result }
{
    let call = Name::of_word(call)?;
    let reference = Name::of_word(reference)?;
    let interface = read_u64(interface)?;
    let method = read_u16(method)?;
    let caps = read_caps(alloc, caps)?;
    Ok(LineCommand::Call(CallLine {
        call,
        reference,
        interface,
        method,
        caps,
    }))
}

fn read_answer(alloc: Global, rest: &[&[u8]]) -> Result<LineCommand, ReadFault>
    ensures { Reads (answer_of (map (λ word. word.now) rest.now)) result }
{
    let [task, caps] = rest else {
        return Err(ReadFault::Line(LineFault::Count));
    };
    let task = read_u64(task)?;
    let caps = read_caps(alloc, caps)?;
    Ok(LineCommand::Answer(TaskId(task), caps))
}

/// The commands whose words are names and numbers.
fn read_plain(word: &[u8], rest: &[&[u8]]) -> Result<LineCommand, LineFault>
    ensures { result ≡ plain_of word.now (map (λ word. word.now) rest.now) }
{
    if is_word("host", word) {
        return read_host(rest);
    }
    if is_word("bootstrap", word) {
        let call = one_name(rest)?;
        return Ok(LineCommand::Bootstrap(call));
    }
    if is_word("promise", word) {
        let (promise, name) = two_names(rest)?;
        return Ok(LineCommand::Promise(promise, name));
    }
    if is_word("clone", word) {
        let (name, from) = two_names(rest)?;
        return Ok(LineCommand::CloneRef(name, from));
    }
    read_ending(word, rest)
}

/// Those of them that end something, or change what a reference leads to.
fn read_ending(word: &[u8], rest: &[&[u8]]) -> Result<LineCommand, LineFault>
    ensures { result ≡ ending_of word.now (map (λ word. word.now) rest.now) }
{
    if is_word("fail", word) {
        return read_fail(rest);
    }
    if is_word("resolve", word) {
        let (promise, name) = two_names(rest)?;
        return Ok(LineCommand::Resolve(promise, name));
    }
    if is_word("reject", word) {
        let promise = one_name(rest)?;
        return Ok(LineCommand::Reject(promise));
    }
    if is_word("drop", word) {
        let name = one_name(rest)?;
        return Ok(LineCommand::DropRef(name));
    }
    if is_word("finish", word) {
        let call = one_name(rest)?;
        return Ok(LineCommand::Finish(call));
    }
    if is_word("advance", word) {
        let name = one_name(rest)?;
        return Ok(LineCommand::Advance(name));
    }
    Err(LineFault::Word)
}

fn read_host(rest: &[&[u8]]) -> Result<LineCommand, LineFault>
    ensures { result ≡ host_of (map (λ word. word.now) rest.now) }
{
    let [name, object] = rest else {
        return Err(LineFault::Count);
    };
    let name = Name::of_word(name)?;
    let object = read_u64(object)?;
    Ok(LineCommand::Host(name, ObjectId(object)))
}

fn read_fail(rest: &[&[u8]]) -> Result<LineCommand, LineFault>
    ensures { result ≡ fail_of (map (λ word. word.now) rest.now) }
{
    let [task] = rest else {
        return Err(LineFault::Count);
    };
    let task = read_u64(task)?;
    Ok(LineCommand::Fail(TaskId(task)))
}

/// The one word that follows, a name.
fn one_name(rest: &[&[u8]]) -> Result<Name, LineFault>
    ensures { result ≡ one_name (map (λ word. word.now) rest.now) }
{
    match rest {
        [name] => Name::of_word(name),
        _ => Err(LineFault::Count),
    }
}

/// The two words that follow, both names.
fn two_names(rest: &[&[u8]]) -> Result<(Name, Name), LineFault>
    ensures { result ≡ two_names (map (λ word. word.now) rest.now) }
{
    let [first, second] = rest else {
        return Err(LineFault::Count);
    };
    let first = Name::of_word(first)?;
    let second = Name::of_word(second)?;
    Ok((first, second))
}
