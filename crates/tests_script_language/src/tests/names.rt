//! What names stand for, and what lines do by them.

use rpc_machine::{Command, Event, Granted};
use rpc_msg::{CallId, Payload, PromiseId, RefId, Vat};
use script_language::{Act, GiveFault, Line, Name, NameFault, Names, Program};
use std::alloc::Global;
use std::process::Abort;

/// What a line does by these names. One that is not read is taken for lack of memory.
pub(super) fn act_of(
    alloc: Global,
    names: &Names,
    program: Program,
    text: &str,
) -> Result<Act, GiveFault> {
    match Line::read(alloc, program, text) {
        Ok(line) => act(alloc, names, &line),
        Err(_) => Err(GiveFault::Memory),
    }
}

fn act(alloc: Global, names: &Names, line: &Line) -> Result<Act, GiveFault> {
    let null = Payload::null(alloc)?;
    names.act(alloc, &null, line)
}

pub(super) fn name(names: &mut Names, vat: Vat, word: &str, reference: RefId) -> bool {
    match Name::read(word) {
        Ok(word) => names.name(vat, word, reference).is_ok(),
        Err(_) => false,
    }
}

/// Whether the line is of a vat, and what it is granted can be bound.
fn bind(alloc: Global, names: &mut Names, text: &str, granted: Granted) -> bool {
    match &Line::read(alloc, Program::Run, text) {
        Ok(Line::Command(vat, said)) => names.bind(*vat, said, granted).is_ok(),
        _ => false,
    }
}

/// The names after `LINES` were granted so.
fn bound(rt: &impl Abort, alloc: Global) -> Names {
    let mut names = Names::new(alloc);
    for (text, granted) in LINES {
        assert!(rt; bind(alloc, &mut names, text, *granted), "{text}");
    }
    names
}

const LINES: &[(&str, Granted)] = &[
    ("a bootstrap x", Granted::Call(CallId(3))),
    ("a host x 7", Granted::Reference(RefId(4))),
    ("a promise x y", Granted::Promise(PromiseId(5), RefId(6))),
    ("a call z y 7 1 -", Granted::Call(CallId(8))),
    ("a call z y 7 1 -", Granted::Call(CallId(9))),
    ("a field f x -", Granted::Reference(RefId(10))),
    ("a clone c y", Granted::Reference(RefId(11))),
    ("a drop f", Granted::Done),
];

/// The number that it is about.
fn number_of(act: &Act) -> u64 {
    match act {
        Act::Happens(Event::Command(_, command)) => number_in(command),
        Act::Name(_, _, reference) => reference.0,
        _ => 0,
    }
}

fn number_in(command: &Command) -> u64 {
    match command {
        Command::Finish(call) => call.0,
        Command::DropRef(reference) | Command::Advance(reference) | Command::CloneRef(reference) =>
            reference.0,
        Command::Reject(promise, _) => promise.0,
        _ => 0,
    }
}

fn about(alloc: Global, names: &Names, text: &str) -> Result<u64, GiveFault> {
    match act_of(alloc, names, Program::Run, text) {
        Ok(act) => Ok(number_of(&act)),
        Err(fault) => Err(fault),
    }
}

const ABOUT: &[(&str, Result<u64, GiveFault>)] = &[
    ("a finish x", Ok(3)),
    ("a drop x", Ok(4)),
    ("a reject x", Ok(5)),
    ("a advance y", Ok(6)),
    // bound anew
    ("a finish z", Ok(9)),
    // it was dropped, and the name stays
    ("a clone d f", Ok(10)),
    ("a drop c", Ok(11)),
    // each vat has names of its own
    ("b finish x", Err(GiveFault::Name(NameFault::Call))),
    ("b drop x", Err(GiveFault::Name(NameFault::Reference))),
    ("b reject x", Err(GiveFault::Name(NameFault::Promise))),
    ("a resolve y c", Err(GiveFault::Name(NameFault::Promise))),
    (
        "a call w x 7 1 c,w",
        Err(GiveFault::Name(NameFault::Reference)),
    ),
    ("a take t 0 0", Err(GiveFault::Name(NameFault::Task))),
    ("a got t x 0", Err(GiveFault::Name(NameFault::Outcome))),
];

#[test]
fn names_stand_for_what_was_granted(rt: HostRuntime) {
    let names = bound(&rt, rt.alloc());
    for (text, wanted) in ABOUT {
        assert!(rt; about(rt.alloc(), &names, text) == *wanted, "{text}");
    }
}

/// A struct of one pointer, which is capability 0: the last 16 bytes follow the header.
const ONE_CAP: [u8; 24] = [
    0, 0, 0, 0, 2, 0, 0, 0, //
    0, 0, 0, 0, 0, 0, 1, 0, //
    3, 0, 0, 0, 0, 0, 0, 0,
];

/// Whether it is a call of A with that payload, and of that reference.
fn is_call(act: &Act) -> bool {
    match act {
        Act::Happens(Event::Command(Vat::A, Command::Call(made))) => {
            made.payload.bytes() == ONE_CAP.as_slice()
                && made.payload.caps() == 1
                && made.refs.as_slice() == [RefId(12)].as_slice()
        }
        _ => false,
    }
}

#[test]
fn a_call_carries_the_named_references(rt: HostRuntime) -> Result<(), GiveFault> {
    let mut names = bound(&rt, rt.alloc());
    assert!(rt; name(&mut names, Vat::A, "n", RefId(12)));
    let act = act_of(rt.alloc(), &names, Program::Run, "a call w x 7 1 n")?;
    assert!(rt; is_call(&act));
    Ok(())
}
