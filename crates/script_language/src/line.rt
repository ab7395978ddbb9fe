ghost use Rattle.std.specs.Prelude.{◌≡◌, map, option_copied};
ghost use Rattle.script_language.specs.Acting.{command_in};
ghost use Rattle.script_language.specs.Lines.{line_of, line_for, is_marked, is_skipped, words_for, Reads};
ghost use Rattle.script_language.specs.Scripts.{AreWordsOf};

use crate::fault::{LineFault, ReadFault};
use crate::name::Name;
use crate::parts::split_into;
use crate::reading::read_words;
use rpc_msg::{Items, ObjectId, Op, TaskId, Vat};
use std::alloc::Global;

/// Which program a script is for.
#[derive(Clone, Copy, Debug, PartialEq, Eq, Drop)]
pub enum Program {
    /// Both vats are in one process; the script says when a message is received.
    Run,
    /// The vats are in two threads that take turns.
    Pair,
}

/// What a line `field` says.
#[derive(Drop)]
pub struct FieldLine {
    /// What the new reference is called.
    pub name: Name,
    pub call: Name,
    pub path: Items<Op>,
}

/// What a line `call` says.
#[derive(Drop)]
pub struct CallLine {
    /// What the new call is called.
    pub call: Name,
    pub reference: Name,
    pub interface: u64,
    pub method: u16,
    /// The references that go with it.
    pub caps: Items<Name>,
}

/// What a line `take` says.
#[derive(Clone, Copy, Debug, PartialEq, Eq, Drop)]
pub struct TakeLine {
    /// What the reference is called.
    pub name: Name,
    pub task: TaskId,
    /// Which one of the references that were delivered with the task, counted from 0.
    pub index: u32,
}

/// What a line `got` says.
#[derive(Clone, Copy, Debug, PartialEq, Eq, Drop)]
pub struct GotLine {
    /// What the reference is called.
    pub name: Name,
    pub call: Name,
    /// Which one of the references of the call's outcome, counted from 0.
    pub index: u32,
}

/// What a line asks of its vat, in the script's own names.
#[derive(Drop)]
pub enum LineCommand {
    /// Make a reference to an object, and give it that name.
    Host(Name, ObjectId),
    /// Ask for the peer's bootstrap object, and give the call that name.
    Bootstrap(Name),
    /// Make a reference to what stands at a path of a call's results.
    Field(FieldLine),
    /// Make a call.
    Call(CallLine),
    /// Give a task its results.
    Answer(TaskId, Items<Name>),
    /// Give a task the exception failed, `script`.
    Fail(TaskId),
    /// Make a promise of the first name, and a reference to it of the second.
    Promise(Name, Name),
    /// Settle a promise to what a reference leads to.
    Resolve(Name, Name),
    /// Break a promise with the exception failed, `script`.
    Reject(Name),
    /// Make a clone, of the first name, of the reference of the second.
    CloneRef(Name, Name),
    /// Have no more use for a reference.
    DropRef(Name),
    /// Have no more use for a call.
    Finish(Name),
    /// Take the shorter path of a reference.
    Advance(Name),
}

/// One line of a script.
#[derive(Drop)]
pub enum Line {
    /// It is empty, or a comment.
    Skip,
    /// That vat receives its oldest message.
    Deliver(Vat),
    /// That vat takes turns until one frame was taken.
    Turn(Vat),
    /// The counts of both vats are written down.
    Tables,
    /// A reference that came with a task gets a name.
    Take(Vat, TakeLine),
    /// A reference that came with a call's outcome gets a name.
    Got(Vat, GotLine),
    /// That vat is asked something.
    Command(Vat, LineCommand),
}

impl Line {
    /// What it asks of its vat, if that is what it says.
    pub fn command(&self) -> Option<&LineCommand>
        ensures { option_copied result ≡ command_in self.now }
    {
        match self {
            Line::Command(_, said) => Some(said),
            _ => None,
        }
    }

    /// What a line says: its text stands without the newline, and may be of any length. `Line` with the first thing
    /// that is wrong if it is no line of that program, and there alone; `Memory` if a growth was refused.
    pub fn read(alloc: Global, program: Program, text: &str) -> Result<Line, ReadFault>
        ensures { Reads (line_of program text.now) result }
    {
        let mut words = Vec::new(alloc);
        let text = text.as_bytes();
        split_into(&mut words, text, b' ')?;
        Line::of_words(alloc, program, text, words.as_slice())
    }

    /// The same of a line whose words these are.
    pub(crate) fn of_words(
        alloc: Global,
        program: Program,
        text: &[u8],
        words: &[&[u8]],
    ) -> Result<Line, ReadFault>
        requires { AreWordsOf text.now (map (λ word. word.now) words.now) }
        ensures { Reads (line_of program text.now) result }
    {
        if is_skipped(text) {
            return Ok(Line::Skip);
        }
        if is_marked(text) {
            return Err(ReadFault::Line(LineFault::ByteOrderMark));
        }
        if text.last() == Some(&b'\r') {
            return Err(ReadFault::Line(LineFault::CarriageReturn));
        }
        read_for(alloc, program, words)
    }

    /// The line, if it is one of that program.
    fn of(self, program: Program) -> Result<Line, LineFault>
        ensures { result ≡ line_for program self }
    {
        match (program, self) {
            (Program::Run, Line::Turn(_))
            | (Program::Pair, Line::Deliver(_))
            | (Program::Pair, Line::Tables) => Err(LineFault::OtherProgram),
            (_, line) => Ok(line),
        }
    }
}

fn read_for(alloc: Global, program: Program, words: &[&[u8]]) -> Result<Line, ReadFault>
    ensures { Reads (words_for program (map (λ word. word.now) words.now)) result }
{
    let line = read_words(alloc, words)?;
    let line = line.of(program)?;
    Ok(line)
}

/// Whether the line says nothing.
fn is_skipped(bytes: &[u8]) -> bool
    ensures { result ≡ is_skipped bytes.now }
{
    match bytes {
        [first, ..] => *first == b'#',
        [] => true,
    }
}

/// Whether the line begins with a byte order mark.
fn is_marked(bytes: &[u8]) -> bool
    ensures { result ≡ is_marked bytes.now }
{
    match bytes {
        [first, second, third, ..] => *first == 0xEF && *second == 0xBB && *third == 0xBF,
        _ => false,
    }
}
