//! The trace of one bootstrapped call: changed, cut, and in both versions.
use crate::tests::playing::{Output, check};
use std::alloc::Global;
use std::fmt::Write;
use std::process::Abort;
use std::str;
use vat_trace_lib::play;

const SCRIPT: &[u8] =
    b"a bootstrap boot\na field obj boot -\na call one obj 7 1 -\ndeliver b\ndeliver b\ndeliver a\na got o boot 0\nb answer 0 -\ndeliver a\na finish one\na finish boot\na drop obj\ndeliver b\ndeliver b\na drop o\ndeliver b\n";

/// The lines of its trace in version 1.
const OLD_LINES: &[&str] = &[
    "{\"k\":\"head\",\"version\":1}",
    "{\"call\":0,\"k\":\"asked\",\"vat\":\"a\"}",
    "{\"k\":\"sent\",\"message\":{\"bootstrap\":{\"question\":0}},\"vat\":\"a\"}",
    "{\"k\":\"born\",\"origin\":{\"field\":{\"call\":0,\"path\":[]}},\"ref\":0,\"vat\":\"a\"}",
    "{\"call\":1,\"index\":0,\"interface\":7,\"k\":\"made\",\"method\":1,\"payload\":{\"bytes\":\"AAAAAAEAAAAAAAAAAAAAAA==\",\"caps\":0},\"ref\":0,\"refs\":[],\"vat\":\"a\"}",
    "{\"k\":\"sent\",\"message\":{\"call\":{\"caps\":[],\"interface\":7,\"method\":1,\"payload\":{\"bytes\":\"AAAAAAEAAAAAAAAAAAAAAA==\",\"caps\":0},\"question\":1,\"stamp\":{\"index\":0,\"ref\":0,\"vat\":\"a\"},\"target\":{\"answer\":{\"path\":[],\"question\":0}}}},\"vat\":\"a\"}",
    "{\"k\":\"got\",\"vat\":\"b\"}",
    "{\"k\":\"sent\",\"message\":{\"return\":{\"answer\":0,\"body\":{\"results\":{\"caps\":[{\"senderHosted\":0}],\"payload\":{\"bytes\":\"AAAAAAEAAAADAAAAAAAAAA==\",\"caps\":1}}},\"release\":false}},\"vat\":\"b\"}",
    "{\"k\":\"got\",\"vat\":\"b\"}",
    "{\"interface\":7,\"k\":\"delivered\",\"method\":1,\"object\":0,\"payload\":{\"bytes\":\"AAAAAAEAAAAAAAAAAAAAAA==\",\"caps\":0},\"refs\":[],\"stamp\":{\"index\":0,\"ref\":0,\"vat\":\"a\"},\"task\":0,\"vat\":\"b\"}",
    "{\"k\":\"got\",\"vat\":\"a\"}",
    "{\"call\":0,\"k\":\"ended\",\"outcome\":{\"results\":{\"bytes\":\"AAAAAAEAAAADAAAAAAAAAA==\",\"caps\":1}},\"refs\":[1],\"vat\":\"a\"}",
    "{\"k\":\"answered\",\"outcome\":{\"results\":{\"bytes\":\"AAAAAAEAAAAAAAAAAAAAAA==\",\"caps\":0}},\"refs\":[],\"task\":0,\"vat\":\"b\"}",
    "{\"k\":\"sent\",\"message\":{\"return\":{\"answer\":1,\"body\":{\"results\":{\"caps\":[],\"payload\":{\"bytes\":\"AAAAAAEAAAAAAAAAAAAAAA==\",\"caps\":0}}},\"release\":false}},\"vat\":\"b\"}",
    "{\"k\":\"got\",\"vat\":\"a\"}",
    "{\"call\":1,\"k\":\"ended\",\"outcome\":{\"results\":{\"bytes\":\"AAAAAAEAAAAAAAAAAAAAAA==\",\"caps\":0}},\"refs\":[],\"vat\":\"a\"}",
    "{\"call\":1,\"k\":\"finished\",\"vat\":\"a\"}",
    "{\"k\":\"sent\",\"message\":{\"finish\":{\"question\":1,\"release\":false}},\"vat\":\"a\"}",
    "{\"call\":0,\"k\":\"finished\",\"vat\":\"a\"}",
    "{\"k\":\"dropped\",\"ref\":0,\"vat\":\"a\"}",
    "{\"k\":\"sent\",\"message\":{\"finish\":{\"question\":0,\"release\":false}},\"vat\":\"a\"}",
    "{\"k\":\"got\",\"vat\":\"b\"}",
    "{\"k\":\"got\",\"vat\":\"b\"}",
    "{\"k\":\"dropped\",\"ref\":1,\"vat\":\"a\"}",
    "{\"k\":\"sent\",\"message\":{\"release\":{\"count\":1,\"id\":0}},\"vat\":\"a\"}",
    "{\"k\":\"got\",\"vat\":\"b\"}",
    "{\"a\":{\"exports\":[],\"imports\":[]},\"b\":{\"exports\":[],\"imports\":[]},\"k\":\"tables\"}",
];

fn played(alloc: Global, word: &str, input: &[u8]) -> Vec<u8> {
    let mut reader = input;
    let mut out = Vec::new(alloc);
    let _played = play(alloc, word, &mut reader, &mut out);
    out
}

/// The lines of a text from one number up to another, counted from 1.
fn lines(alloc: Global, text: &[u8], from: usize, to: usize) -> Vec<u8> {
    let mut lines = Vec::new(alloc);
    let mut at = 1;
    for byte in text {
        if from <= at && at < to {
            let _room = lines.push(*byte);
        }
        if *byte == b'\n' {
            at = usize::saturating_add(at, 1);
        }
    }
    lines
}

/// The trace in version 1.
fn old(alloc: Global) -> Vec<u8> {
    let mut text = Vec::new(alloc);
    for line in OLD_LINES {
        let _room = text.extend_from_slice(line.as_bytes());
        let _room = text.push(b'\n');
    }
    text
}

/// The same in version 2.
fn new(alloc: Global) -> Vec<u8> {
    played(alloc, "run", SCRIPT)
}

/// Lines that stand in the place of those from one number up to another, counted from 1.
type Change = (usize, usize, &'static [u8]);

fn changed(alloc: Global, text: &[u8], change: Change) -> Vec<u8> {
    let (from, to, new) = change;
    let mut changed = lines(alloc, text, 1, from);
    let rest = lines(alloc, text, to, usize::MAX);
    let _room = changed.extend_from_slice(new);
    let _room = changed.extend_from_slice(&rest);
    changed
}

/// The word, the change, and the output.
type Case = (&'static str, Change, Output);

const DOWN: &[u8] = b"{\"fault\":33,\"k\":\"down\",\"vat\":\"b\"}\n";

/// What the trace says in both versions, and with changes.
const WHOLE: &[Case] = &[
    ("check", (1, 1, b""), (0, "ok: 1 delivered\n", "")),
    (
        "show",
        (1, 1, b""),
        (0, "a/0: made 1, delivered 1 to b/0\n", ""),
    ),
    ("check", (5, 6, b""), (3, "broken order at entry 9\n", "")),
    (
        "check",
        (8, 9, b""),
        (3, "nothing in flight at entry 10\n", ""),
    ),
    // the Release is sent twice
    (
        "check",
        (
            26,
            26,
            b"{\"k\":\"sent\",\"message\":{\"release\":{\"count\":1,\"id\":0}},\"vat\":\"a\"}\n",
        ),
        (3, "broken count at entry 28\n", ""),
    ),
    (
        "check",
        (13, 13, DOWN),
        (3, "sent after down at entry 14\n", ""),
    ),
];

/// What it says in version 1 alone: an old flag is false, and a head is of a known version.
const OLD: &[Case] = &[
    (
        "upgrade",
        (
            18,
            19,
            b"{\"k\":\"sent\",\"message\":{\"finish\":{\"question\":1,\"release\":true}},\"vat\":\"a\"}\n",
        ),
        (2, "", "trace line 18: fault 51\n"),
    ),
    (
        "upgrade",
        (1, 2, b"{\"k\":\"head\",\"version\":3}\n"),
        (2, "", "trace line 1: fault 54\n"),
    ),
];

fn check_all(rt: &impl Abort, alloc: Global, text: &[u8], cases: &[Case]) {
    for (word, change, wanted) in cases {
        check(rt, alloc, word, &changed(alloc, text, *change), *wanted);
    }
}

#[test]
fn changes_have_these_outputs(rt: HostRuntime) {
    let alloc = rt.alloc();
    let old = old(alloc);
    check_all(&rt, alloc, &old, WHOLE);
    check_all(&rt, alloc, &old, OLD);
    check_all(&rt, alloc, &new(alloc), WHOLE);
}

#[test]
fn an_upgraded_trace_is_that_of_version_2(rt: HostRuntime) {
    let upgraded = played(rt.alloc(), "upgrade", &old(rt.alloc()));
    assert!(rt; upgraded.as_slice() == new(rt.alloc()).as_slice());
}

/// A call under an embargo: B resolves its promise to A's object while a call is on its way to it.
const EMBARGO: &[u8] =
    b"a bootstrap boot\na field reg boot -\na host own 5\na call get reg 7 2 own\ndeliver b\ndeliver b\nb promise p q\nb answer 0 q\ndeliver a\ndeliver a\na got pri get 0\na call two pri 7 3 -\nb take o 0 0\nb resolve p o\ndeliver a\na advance pri\na call three pri 7 4 -\ndeliver b\ndeliver b\ndeliver a\ndeliver a\ntables\n";

#[test]
fn a_trace_that_is_cut(rt: HostRuntime) {
    let alloc = rt.alloc();
    each_cut(&rt, alloc, &old(alloc));
    each_cut(&rt, alloc, &played(alloc, "run", EMBARGO));
}

/// Each beginning of whole lines is good, with so many deliveries as it has lines that say one; and one that ends inside a line is
/// at fault there: behind the line's first byte, in its middle, and where its last brace is gone.
fn each_cut(rt: &impl Abort, alloc: Global, text: &[u8]) {
    let Ok(text) = str::from_utf8(text) else {
        panic!(rt; "no text");
    };
    let mut delivered: usize = 0;
    let mut number: usize = 0;
    let mut whole = Vec::new(alloc);
    for line in text.lines() {
        number = number.saturating_add(1);
        is_cut_in(rt, alloc, &whole, line.as_bytes(), number);
        if line.contains("\"k\":\"delivered\"") {
            delivered = delivered.saturating_add(1);
        }
        let _room = whole.extend_from_slice(line.as_bytes());
        let _room = whole.push(b'\n');
        is_good(rt, alloc, &whole, delivered);
    }
    assert!(rt; number > 20);
}

fn is_good(rt: &impl Abort, alloc: Global, whole: &[u8], delivered: usize) {
    let mut said = String::new(alloc);
    let _said = writeln!(said, "ok: {delivered} delivered");
    check(rt, alloc, "check", whole, (0, said.as_str(), ""));
}

fn is_cut_in(rt: &impl Abort, alloc: Global, whole: &[u8], line: &[u8], number: usize) {
    let length = line.len();
    for length in [1, length / 2, length.saturating_sub(1)] {
        let part = line.get(0..length).unwrap_or_default();
        is_at_fault_in(rt, alloc, whole, part, number);
    }
}

/// Behind whole lines a part of the one with that number is no JSON.
fn is_at_fault_in(rt: &impl Abort, alloc: Global, whole: &[u8], part: &[u8], number: usize) {
    let mut cut = Vec::new(alloc);
    let _room = cut.extend_from_slice(whole);
    let _room = cut.extend_from_slice(part);
    let mut said = String::new(alloc);
    let _said = writeln!(said, "trace line {number}: fault 50");
    check(rt, alloc, "check", &cut, (2, "", said.as_str()));
}
