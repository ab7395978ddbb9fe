//! What is done with a vat, and how a scene is played.
use crate::tests::asks::{Ask, Named, asks, calls};
use crate::tests::told::{Told, next};
use rpc_machine::{Granted, Level, Refusal};
use rpc_msg::{ObjectId, Vat};
use std::alloc::Global;
use std::process::Abort;
use vat_connection::{Connection, Limits};

/// The bootstrap object of a vat that has one.
pub(crate) const ROOT: Option<ObjectId> = Some(ObjectId(0));

pub(crate) const DONE: Result<Granted, Refusal> = Ok(Granted::Done);

/// What is done with one of two vats, and what it answers then.
#[derive(Clone, Copy)]
pub(crate) enum Step<'a> {
    Asks(Ask, Result<Granted, Refusal>),
    Calls(Named, Result<Granted, Refusal>),
    Tells(Told),
    Hears(&'a [u8]),
    /// The same, so many times.
    HearsOften(&'a [u8], usize),
    /// Its stream ends.
    Ends,
    Shuts(u16),
    /// It has these bytes to send, and no more.
    Says(&'a [u8]),
    /// It has a Return of question 7 to send, an exception (`failed`) with that reason and a true flag.
    Fails(&'a str),
    HasOutgoing(bool),
    /// It hears more only while its load has at most so many words and bytes.
    Limits(u64, u64),
    /// Its load has so many words.
    Loads(u64),
    WantsBytes(bool),
    IsUp,
    SharesNothing,
    /// All that it has to send goes to the other.
    Carries,
}

/// Steps, each with the vat that takes it.
pub(crate) type Steps<'a> = &'a [(Vat, Step<'a>)];

// A vat that takes a step is looked at in one place, so that a proof looks at one call of it at a time.
fn holds(alloc: Global, vat: &mut Connection, step: &Step<'_>) -> bool {
    match step {
        Step::Asks(ask, wanted) => asks(alloc, vat, *ask) == Some(*wanted),
        Step::Calls(named, wanted) => calls(alloc, vat, *named) == Some(*wanted),
        Step::Tells(wanted) => next(vat) == *wanted,
        Step::Says(bytes) => says(vat, bytes),
        Step::Fails(reason) => fails(&vat.outgoing(), reason.as_bytes()),
        Step::HasOutgoing(wanted) => vat.has_outgoing() == *wanted,
        Step::Loads(words) => vat.load().words == *words,
        Step::WantsBytes(wanted) => vat.wants_bytes() == *wanted,
        Step::IsUp => vat.core().down().is_none(),
        Step::SharesNothing => vat.core().shares_nothing(),
        Step::Hears(_)
        | Step::HearsOften(..)
        | Step::Ends
        | Step::Shuts(_)
        | Step::Limits(..)
        | Step::Carries => {
            happens(vat, step);
            true
        }
    }
}

fn happens(vat: &mut Connection, step: &Step<'_>) {
    match step {
        Step::Hears(bytes) => vat.received(bytes),
        Step::HearsOften(bytes, times) => hears_often(vat, bytes, *times),
        Step::Ends => vat.ended(),
        Step::Shuts(number) => vat.shut(*number),
        Step::Limits(words, bytes) => vat.set_limits(Limits {
            words: *words,
            bytes: *bytes,
        }),
        _ => {}
    }
}

fn hears_often(vat: &mut Connection, bytes: &[u8], times: usize) {
    for _ in 0..times {
        vat.received(bytes);
    }
}

/// A Return of question 7 with an exception (`failed`) and a true flag (`rpc.capnp`): from the root's pointer to where the reason
/// begins.
const FAILED: [u8; 60] = [
    0, 0, 0, 0, 1, 0, 1, 0, 3, 0, 0, 0, 0, 0, 0, 0, 0, 0, 0, 0, 2, 0, 1, 0, 7, 0, 0, 0, 0, 0, 1, 0,
    0, 0, 0, 0, 0, 0, 0, 0, 0, 0, 0, 0, 1, 0, 2, 0, 0, 0, 0, 0, 0, 0, 0, 0, 5, 0, 0, 0,
];

/// Behind its table and that come the size of the reason in four bytes, a null pointer, and the reason.
fn fails(said: &[u8], reason: &[u8]) -> bool {
    if said.len() < 80 {
        return false;
    }
    let (front, text) = said.split_at(80);
    let (_, front) = front.split_at(8);
    front.starts_with(&FAILED) && text.starts_with(reason)
}

fn says(vat: &mut Connection, wanted: &[u8]) -> bool {
    vat.outgoing().as_slice() == wanted
}

/// Hands all that one has to send to the other, in pieces of that length: how many bytes. In pieces of 0 it hands over nothing.
fn carry(from: &mut Connection, to: &mut Connection, piece: usize) -> usize {
    let bytes = from.outgoing();
    if piece > 0 {
        for part in bytes.chunks(piece) {
            to.received(part);
        }
    }
    bytes.len()
}

// How many bytes went over. None if the step does not hold.
fn take(
    alloc: Global,
    vat: &mut Connection,
    other: &mut Connection,
    piece: usize,
    step: &Step<'_>,
) -> Option<usize> {
    if matches!(step, Step::Carries) {
        return Some(carry(vat, other, piece));
    }
    match holds(alloc, vat, step) {
        true => Some(0),
        false => None,
    }
}

/// Plays steps of two vats, whose bytes come in pieces of that length: how many went over.
fn play(
    rt: &impl Abort,
    alloc: Global,
    a: &mut Connection,
    b: &mut Connection,
    piece: usize,
    steps: Steps<'_>,
) -> usize {
    let mut sent = 0;
    for (at, (vat, step)) in steps.iter().enumerate() {
        let bytes = match vat {
            Vat::A => take(alloc, a, b, piece, step),
            Vat::B => take(alloc, b, a, piece, step),
        };
        match bytes {
            Some(bytes) => sent = usize::saturating_add(sent, bytes),
            None => panic!(rt; "step {at}"),
        }
    }
    sent
}

pub(crate) fn vat(rt: &impl Abort, alloc: Global, vat: Vat, root: Option<ObjectId>) -> Connection {
    match Connection::new(alloc, vat, Level::One, root) {
        Ok(connection) => connection,
        Err(_) => panic!(rt; "no memory"),
    }
}

/// Plays the parts of a scene with two new vats, which have these bootstrap objects: how many bytes went over in each.
pub(crate) fn scene(
    rt: &impl Abort,
    alloc: Global,
    roots: [Option<ObjectId>; 2],
    piece: usize,
    parts: &[Steps<'_>],
) -> [usize; 4] {
    let mut a = vat(rt, alloc, Vat::A, roots[0]);
    let mut b = vat(rt, alloc, Vat::B, roots[1]);
    play_parts(rt, alloc, &mut a, &mut b, piece, parts)
}

fn play_parts(
    rt: &impl Abort,
    alloc: Global,
    a: &mut Connection,
    b: &mut Connection,
    piece: usize,
    parts: &[Steps<'_>],
) -> [usize; 4] {
    let mut sent = [0; 4];
    for (at, steps) in parts.iter().enumerate() {
        let bytes = play(rt, alloc, a, b, piece, steps);
        if at < 4 {
            sent[at] = bytes;
        }
    }
    sent
}
