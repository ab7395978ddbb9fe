//! Capabilities that a Return gives back by its flag, at two seats to which frames are handed: the counts of both vats after each
//! step.
use crate::tests::acts::Act;
use crate::tests::commands::command;
use crate::tests::cores::seat;
use crate::tests::need::Asked;
use crate::tests::seated::{ask, take};
use link_driver::{Frame, Seat};
use rpc_msg::{ExportId, Memory, Message, ObjectId, PlainMessage, Release, Return, Vat};
use std::alloc::Global;
use std::process::Abort;

/// What happens at one of the seats: it takes the next frame of the other, or is asked.
#[derive(Clone, Copy, Drop)]
enum Step {
    ToA,
    ToB,
    A(Act),
    B(Act),
}

/// What B said by it, if it is one of these: a Return of a question with its flag, a Release of an export by a count.
#[derive(Clone, Copy, PartialEq, Eq, Debug, Drop)]
enum Told {
    Nothing,
    Returned(u32, bool),
    Released(u32, u32),
}

/// A has a reference to B's bootstrap object, and one to an object of its own. Each took what the other had said.
const MET: &[Step] = &[
    Step::A(Act::Bootstrap),
    Step::A(Act::Field(0)),
    Step::A(Act::Host(5)),
    Step::ToB,
    Step::ToA,
];

/// A calls B's bootstrap object, with the object of its own.
const GIVE: Step = Step::A(Act::Give(0, 1, 1));

/// The count of A's export, that of B's import, and what B said.
type Row = (Step, u32, u32, Told);

/// B lets the object go before it answers: its one name is given back by the flag.
const LET_GO: &[Row] = &[
    (GIVE, 1, 0, Told::Nothing),
    (Step::ToB, 1, 1, Told::Nothing),
    (Step::B(Act::LetGo(0)), 1, 1, Told::Nothing),
    (Step::B(Act::Answer(0)), 1, 0, Told::Returned(1, true)),
    (Step::ToA, 0, 0, Told::Nothing),
];

/// B keeps the object, and lets it go later.
const KEPT: &[Row] = &[
    (GIVE, 1, 0, Told::Nothing),
    (Step::ToB, 1, 1, Told::Nothing),
    (Step::B(Act::Answer(0)), 1, 1, Told::Returned(1, false)),
    (Step::ToA, 1, 1, Told::Nothing),
    (Step::B(Act::LetGo(0)), 1, 0, Told::Released(0, 1)),
    (Step::ToA, 0, 0, Told::Nothing),
];

/// The object comes twice, and B lets go what came first.
const TWICE: &[Row] = &[
    (GIVE, 1, 0, Told::Nothing),
    (GIVE, 2, 0, Told::Nothing),
    (Step::ToB, 2, 1, Told::Nothing),
    (Step::ToB, 2, 2, Told::Nothing),
    (Step::B(Act::LetGo(0)), 2, 2, Told::Nothing),
    (Step::B(Act::Answer(0)), 2, 1, Told::Returned(1, true)),
    (Step::B(Act::Answer(1)), 2, 1, Told::Returned(2, false)),
    (Step::ToA, 1, 1, Told::Nothing),
    (Step::ToA, 1, 1, Told::Nothing),
];

/// Hands on the next frame that a seat made, after so many: whether the other is up behind it.
fn hand_on(alloc: Global, from: &Seat, to: &mut Seat, number: &mut usize) -> bool {
    let Some(frame) = from.made().get(*number) else {
        return false;
    };
    let seq = *number as u64;
    *number = number.wrapping_add(1);
    match frame.message.copy(alloc) {
        Ok(message) => take(to, seq, frame.ack, message).is_none(),
        Err(Memory) => false,
    }
}

fn obey(alloc: Global, seat: &mut Seat, act: Act) -> bool {
    match command(alloc, act) {
        Ok(Some(command)) => ask(seat, command) == Asked::Done,
        _ => false,
    }
}

/// How many frames of the other each took.
#[derive(Clone, Copy, Drop)]
struct Came {
    at_a: usize,
    at_b: usize,
}

/// Whether it is done.
fn happen(alloc: Global, a: &mut Seat, b: &mut Seat, came: &mut Came, step: Step) -> bool {
    match step {
        Step::ToA => hand_on(alloc, b, a, &mut came.at_a),
        Step::ToB => hand_on(alloc, a, b, &mut came.at_b),
        Step::A(act) => obey(alloc, a, act),
        Step::B(act) => obey(alloc, b, act),
    }
}

/// The count of that export or import, if there is one.
fn count_of(counts: &[(ExportId, u32)]) -> u32 {
    let [only] = counts else {
        return 0;
    };
    let (export, count) = *only;
    if export.0 == 0 {
        return count;
    }
    0
}

/// The count of an export of that seat, and that of an import.
fn counts(seat: &Seat) -> Option<(u32, u32)> {
    match seat.side().counts() {
        Ok(counts) => Some((
            count_of(counts.exports.as_slice()),
            count_of(counts.imports.as_slice()),
        )),
        Err(Memory) => None,
    }
}

/// What was said by the frames that were made after so many.
fn said_by(frames: &[Frame], made: usize) -> Told {
    let Some([frame]) = frames.get(made..) else {
        return Told::Nothing;
    };
    match &frame.message {
        Message::Plain(
            PlainMessage::Return(
                Return {
                    answer,
                    release_param_caps,
                    body: _,
                },
            ),
        ) => { Told::Returned(answer.0, *release_param_caps) }
        Message::Plain(PlainMessage::Release(Release { export, count })) => {
            Told::Released(export.0, *count)
        }
        _ => Told::Nothing,
    }
}

/// Whether both seats are as the row says behind its step.
fn is_so(alloc: Global, a: &mut Seat, b: &mut Seat, came: &mut Came, row: Row) -> bool {
    let (step, of_a, of_b, said) = row;
    let made = b.made().len();
    happen(alloc, a, b, came, step)
        && matches!(counts(a), Some((exported, _)) if exported == of_a)
        && matches!(counts(b), Some((_, imported)) if imported == of_b)
        && said_by(b.made(), made) == said
}

fn play(alloc: Global, a: &mut Seat, b: &mut Seat, rows: &[Row]) -> bool {
    let mut came = Came { at_a: 0, at_b: 0 };
    for step in MET {
        if !happen(alloc, a, b, &mut came, *step) {
            return false;
        }
    }
    for row in rows {
        if !is_so(alloc, a, b, &mut came, *row) {
            return false;
        }
    }
    true
}

fn seats(rt: &impl Abort, alloc: Global) -> Result<(Seat, Seat), Memory> {
    let a = seat(rt, alloc, Vat::A, None)?;
    let b = seat(rt, alloc, Vat::B, Some(ObjectId(0)))?;
    Ok((a, b))
}

#[test]
fn what_a_return_gives_back_is_counted(rt: HostRuntime) -> Result<(), Memory> {
    for rows in [LET_GO, KEPT, TWICE] {
        let (mut a, mut b) = seats(&rt, rt.alloc())?;
        assert!(rt; play(rt.alloc(), &mut a, &mut b, rows));
    }
    Ok(())
}
