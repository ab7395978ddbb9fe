//! What lines say, and what is wrong with them.

use rpc_msg::{Items, Op, Vat};
use script_language::{
    CallLine, Line, LineCommand, LineFault, Name, Program, ReadFault, ScriptFault, read_script,
};
use std::alloc::Global;

/// A line's word, its vat, and its names and numbers in their order.
#[derive(Clone, Copy, PartialEq, Eq)]
struct Told {
    word: &'static str,
    vat: Option<Vat>,
    names: [Option<Name>; 2],
    numbers: [u64; 2],
}

/// The same, with the names as words.
type Wanted = (
    Program,
    &'static str,
    &'static str,
    Option<Vat>,
    [&'static str; 2],
    [u64; 2],
);

const RUN: Program = Program::Run;

const PAIR: Program = Program::Pair;

const LINES: &[Wanted] = &[
    (RUN, "", "skip", None, ["", ""], [0, 0]),
    (PAIR, "# a drop x\r", "skip", None, ["", ""], [0, 0]),
    (RUN, "deliver b", "deliver", Some(Vat::B), ["", ""], [0, 0]),
    (RUN, "tables", "tables", None, ["", ""], [0, 0]),
    (PAIR, "a turn", "turn", Some(Vat::A), ["", ""], [0, 0]),
    (
        RUN,
        "b host obj 18446744073709551615",
        "host",
        Some(Vat::B),
        ["obj", ""],
        [18_446_744_073_709_551_615, 0],
    ),
    (
        PAIR,
        "a bootstrap boot",
        "bootstrap",
        Some(Vat::A),
        ["boot", ""],
        [0, 0],
    ),
    (
        RUN,
        "b field obj boot 0.00007.65535",
        "field",
        Some(Vat::B),
        ["obj", "boot"],
        [3, 65_542],
    ),
    (
        RUN,
        "a field obj boot -",
        "field",
        Some(Vat::A),
        ["obj", "boot"],
        [0, 0],
    ),
    // a path may be longer than a vat takes
    (
        RUN,
        "a field obj boot 0.1.2.3.4.5.6.7.8.9.10.11.12.13.14.15.16",
        "field",
        Some(Vat::A),
        ["obj", "boot"],
        [17, 136],
    ),
    (
        RUN,
        "a call one obj 7 1 -",
        "call",
        Some(Vat::A),
        ["one", "obj"],
        [7, 100],
    ),
    (
        PAIR,
        "a call one obj 18446744073709551615 65535 x,y,x",
        "call",
        Some(Vat::A),
        ["one", "obj"],
        [18_446_744_073_709_551_615, 6_553_503],
    ),
    (
        RUN,
        "a take obj 012 4294967295",
        "take",
        Some(Vat::A),
        ["obj", ""],
        [12, 4_294_967_295],
    ),
    (
        RUN,
        "b got obj one 0",
        "got",
        Some(Vat::B),
        ["obj", "one"],
        [0, 0],
    ),
    (
        RUN,
        "b answer 3 -",
        "answer",
        Some(Vat::B),
        ["", ""],
        [3, 0],
    ),
    (
        RUN,
        "b answer 3 obj",
        "answer",
        Some(Vat::B),
        ["", ""],
        [3, 1],
    ),
    (RUN, "a fail 0", "fail", Some(Vat::A), ["", ""], [0, 0]),
    (
        RUN,
        "a promise p obj",
        "promise",
        Some(Vat::A),
        ["p", "obj"],
        [0, 0],
    ),
    (
        RUN,
        "a resolve p obj",
        "resolve",
        Some(Vat::A),
        ["p", "obj"],
        [0, 0],
    ),
    (RUN, "a reject p", "reject", Some(Vat::A), ["p", ""], [0, 0]),
    (
        RUN,
        "a clone two obj",
        "clone",
        Some(Vat::A),
        ["two", "obj"],
        [0, 0],
    ),
    (RUN, "a drop obj", "drop", Some(Vat::A), ["obj", ""], [0, 0]),
    (
        RUN,
        "a finish one",
        "finish",
        Some(Vat::A),
        ["one", ""],
        [0, 0],
    ),
    (
        RUN,
        "a advance obj",
        "advance",
        Some(Vat::A),
        ["obj", ""],
        [0, 0],
    ),
    // a name may be any word that is made of its letters
    (
        RUN,
        "a drop 0123456789abcdef",
        "drop",
        Some(Vat::A),
        ["0123456789abcdef", ""],
        [0, 0],
    ),
];

fn brief(
    word: &'static str,
    vat: Option<Vat>,
    names: [Option<Name>; 2],
    numbers: [u64; 2],
) -> Told {
    Told {
        word,
        vat,
        names,
        numbers,
    }
}

fn steps(path: &Items<Op>) -> [u64; 2] {
    let mut sum: u64 = 0;
    for op in path {
        if let Op::Field(number) = op {
            sum = sum.wrapping_add(u64::from(*number));
        }
    }
    [path.len() as u64, sum]
}

fn outline_call(at: Option<Vat>, line: &CallLine) -> Told {
    let method = u64::from(line.method).wrapping_mul(100);
    brief(
        "call",
        at,
        [Some(line.call), Some(line.reference)],
        [line.interface, method.wrapping_add(line.caps.len() as u64)],
    )
}

fn outline_command(vat: Vat, said: &LineCommand) -> Told {
    let at = Some(vat);
    let none = [None, None];
    match said {
        LineCommand::Host(name, object) => brief("host", at, [Some(*name), None], [object.0, 0]),
        LineCommand::Bootstrap(call) => brief("bootstrap", at, [Some(*call), None], [0, 0]),
        LineCommand::Field(line) => {
            brief(
                "field",
                at,
                [Some(line.name), Some(line.call)],
                steps(&line.path),
            )
        }
        LineCommand::Call(line) => outline_call(at, line),
        LineCommand::Answer(task, caps) => brief("answer", at, none, [task.0, caps.len() as u64]),
        LineCommand::Fail(task) => brief("fail", at, none, [task.0, 0]),
        LineCommand::Promise(promise, name) => {
            brief("promise", at, [Some(*promise), Some(*name)], [0, 0])
        }
        LineCommand::Resolve(promise, name) => {
            brief("resolve", at, [Some(*promise), Some(*name)], [0, 0])
        }
        LineCommand::Reject(promise) => brief("reject", at, [Some(*promise), None], [0, 0]),
        LineCommand::CloneRef(name, from) => {
            brief("clone", at, [Some(*name), Some(*from)], [0, 0])
        }
        LineCommand::DropRef(name) => brief("drop", at, [Some(*name), None], [0, 0]),
        LineCommand::Finish(call) => brief("finish", at, [Some(*call), None], [0, 0]),
        LineCommand::Advance(name) => brief("advance", at, [Some(*name), None], [0, 0]),
    }
}

fn outline(line: &Line) -> Told {
    let none = [None, None];
    match line {
        Line::Skip => brief("skip", None, none, [0, 0]),
        Line::Deliver(vat) => brief("deliver", Some(*vat), none, [0, 0]),
        Line::Turn(vat) => brief("turn", Some(*vat), none, [0, 0]),
        Line::Tables => brief("tables", None, none, [0, 0]),
        Line::Take(vat, line) => brief(
            "take",
            Some(*vat),
            [Some(line.name), None],
            [line.task.0, u64::from(line.index)],
        ),
        Line::Got(vat, line) => brief(
            "got",
            Some(*vat),
            [Some(line.name), Some(line.call)],
            [u64::from(line.index), 0],
        ),
        Line::Command(vat, said) => outline_command(*vat, said),
    }
}

fn name_of(word: &str) -> Option<Name> {
    Name::read(word).ok()
}

fn says(alloc: Global, wanted: Wanted) -> bool {
    let (program, text, word, vat, names, numbers) = wanted;
    let [first, second] = names;
    let wanted = brief(word, vat, [name_of(first), name_of(second)], numbers);
    match &Line::read(alloc, program, text) {
        Ok(line) => outline(line) == wanted,
        Err(_) => false,
    }
}

#[test]
fn lines_are_read(rt: HostRuntime) {
    for wanted in LINES {
        assert!(rt; says(rt.alloc(), *wanted), "{}", wanted.1);
    }
}

/// Lines of no script, and what is wrong with each first.
const FAULTS: &[(Program, &str, LineFault)] = &[
    (RUN, "\u{feff}", LineFault::ByteOrderMark),
    (RUN, "\u{feff}a drop x\r", LineFault::ByteOrderMark),
    (RUN, "\r", LineFault::CarriageReturn),
    (RUN, "c lift x\r", LineFault::CarriageReturn),
    // there are two vats
    (RUN, " ", LineFault::Vat),
    (RUN, "c", LineFault::Vat),
    (RUN, "A drop x", LineFault::Vat),
    (RUN, " deliver a", LineFault::Vat),
    (RUN, "deliver\ta", LineFault::Vat),
    (RUN, "deliver c", LineFault::Vat),
    (RUN, "deliver A", LineFault::Vat),
    (RUN, "ab drop x", LineFault::Vat),
    (RUN, " # a comment", LineFault::Vat),
    // a word says what to do
    (RUN, "a lift X", LineFault::Word),
    (RUN, "a Drop x", LineFault::Word),
    (RUN, "a ", LineFault::Word),
    (RUN, "a  drop x", LineFault::Word),
    (RUN, "a deliver", LineFault::Word),
    (RUN, "a shut 1", LineFault::Word),
    // a line has all its words and no more
    (RUN, "a", LineFault::Count),
    (RUN, "deliver", LineFault::Count),
    (RUN, "deliver a b", LineFault::Count),
    (RUN, "deliver drop obj", LineFault::Count),
    (RUN, "deliver  a", LineFault::Count),
    (RUN, "deliver a ", LineFault::Count),
    (RUN, "tables a", LineFault::Count),
    (PAIR, "a turn ", LineFault::Count),
    (RUN, "a bootstrap", LineFault::Count),
    (RUN, "a bootstrap one two", LineFault::Count),
    (RUN, "a field obj boot", LineFault::Count),
    (RUN, "a field obj boot - -", LineFault::Count),
    (RUN, "a answer 0", LineFault::Count),
    (RUN, "a finish", LineFault::Count),
    (RUN, "a drop x ", LineFault::Count),
    (RUN, "a drop X Y", LineFault::Count),
    (RUN, "a call one obj 7 1", LineFault::Count),
    (RUN, "a call one obj 7 1 - -", LineFault::Count),
    (RUN, "a take x 0", LineFault::Count),
    // names
    (RUN, "a drop ", LineFault::Name),
    (RUN, "a drop -", LineFault::Name),
    (RUN, "a drop X", LineFault::Name),
    (RUN, "a drop \u{e9}", LineFault::Name),
    (RUN, "a drop 0123456789abcdefg", LineFault::LongName),
    (RUN, "a call one obj 7 1 x,,y", LineFault::Name),
    (RUN, "a call one obj 7 1 x,", LineFault::Name),
    (RUN, "a answer 0 --", LineFault::Name),
    // numbers have limits and no sign
    (RUN, "a fail 18446744073709551616", LineFault::LargeNumber),
    (
        RUN,
        "a fail 000000000000000000000000000000018446744073709551616",
        LineFault::LargeNumber,
    ),
    (RUN, "a fail +1", LineFault::Number),
    (RUN, "a fail -1", LineFault::Number),
    (RUN, "a fail 1_0", LineFault::Number),
    (RUN, "a fail 0x1", LineFault::Number),
    (RUN, "a fail ", LineFault::Number),
    (RUN, "a answer - -", LineFault::Number),
    (RUN, "a take x 0 4294967296", LineFault::LargeNumber),
    (RUN, "a call one obj 0 65536 -", LineFault::LargeNumber),
    (
        RUN,
        "a call one obj 18446744073709551616 0 -",
        LineFault::LargeNumber,
    ),
    (RUN, "a field obj boot 65536", LineFault::LargeNumber),
    (RUN, "a field obj boot 1.+2", LineFault::Number),
    (RUN, "a field obj boot .1", LineFault::Number),
    (RUN, "a field obj boot .", LineFault::Number),
    (RUN, "a field obj boot 1.", LineFault::Number),
    (RUN, "a field obj boot 1.-", LineFault::Number),
    (RUN, "a field obj boot 1..2", LineFault::Number),
    (RUN, "a field obj boot --", LineFault::Number),
    // the first from the left
    (
        RUN,
        "a call ONE X 99999999999999999999 y Z",
        LineFault::Name,
    ),
    (
        RUN,
        "a call one x 99999999999999999999 y Z",
        LineFault::LargeNumber,
    ),
    (RUN, "a call one x 9 y Z", LineFault::Number),
    (RUN, "a call one x 9 1 Z", LineFault::Name),
    // each program has lines of its own
    (RUN, "a turn", LineFault::OtherProgram),
    (PAIR, "deliver a", LineFault::OtherProgram),
    (PAIR, "tables", LineFault::OtherProgram),
    (PAIR, "deliver c", LineFault::Vat),
];

fn is_at_fault(alloc: Global, program: Program, text: &str, fault: LineFault) -> bool {
    match Line::read(alloc, program, text) {
        Ok(_) => false,
        Err(found) => found == ReadFault::Line(fault),
    }
}

#[test]
fn the_first_fault_of_a_line_is_named(rt: HostRuntime) {
    for (program, text, fault) in FAULTS {
        assert!(rt; is_at_fault(rt.alloc(), *program, text, *fault), "{text}");
    }
}

/// How many lines scripts have.
const SCRIPTS: &[(&[u8], usize)] = &[
    (b"", 1),
    (b"a drop x", 1),
    (b"a drop x\n", 2),
    (b"# \xc3\xa9\n\ntables\ndeliver a\n", 5),
];

/// Scripts that are none.
const NO_SCRIPTS: &[(&[u8], ScriptFault)] = &[
    (b"a drop x\n\xff", ScriptFault::NotText),
    (b"a drop\n\xff", ScriptFault::NotText),
    (b"\n#\na drop\nlift", ScriptFault::Line(3, LineFault::Count)),
    (
        b"a drop x\r\nb drop x\r\n",
        ScriptFault::Line(1, LineFault::CarriageReturn),
    ),
    (
        b"\n\xef\xbb\xbf",
        ScriptFault::Line(2, LineFault::ByteOrderMark),
    ),
];

/// How many lines it has, or what is wrong with it.
fn count(alloc: Global, text: &[u8]) -> Result<usize, ScriptFault> {
    match read_script(alloc, Program::Run, text) {
        Ok(lines) => Ok(lines.len()),
        Err(fault) => Err(fault),
    }
}

#[test]
fn scripts_are_read_whole(rt: HostRuntime) {
    for (text, lines) in SCRIPTS {
        assert!(rt; count(rt.alloc(), text) == Ok(*lines), "{lines}");
    }
    for (text, fault) in NO_SCRIPTS {
        assert!(rt; count(rt.alloc(), text) == Err(*fault), "{fault}");
    }
}
