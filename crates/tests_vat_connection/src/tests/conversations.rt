//! Two vats that understand one another.
use crate::tests::asks::{Ask, Named};
use crate::tests::scene::{DONE, ROOT, Step, Steps, scene};
use crate::tests::told::{Came, Given, RESOLVED, Told};
use rpc_machine::{Granted, Refusal};
use rpc_msg::{CallId, ObjectId, PromiseId, RefId, TaskId, Vat};

/// Vat A refers to the bootstrap object of B, and to an object of its own.
pub(crate) const REFERRED: Steps<'static> = &[
    (
        Vat::A,
        Step::Asks(Ask::Bootstrap, Ok(Granted::Call(CallId(0)))),
    ),
    (
        Vat::A,
        Step::Asks(Ask::Field(CallId(0)), Ok(Granted::Reference(RefId(0)))),
    ),
    (
        Vat::A,
        Step::Asks(Ask::Host(ObjectId(1)), Ok(Granted::Reference(RefId(1)))),
    ),
];

const ASKED: Steps<'static> = &[
    (
        Vat::A,
        Step::Calls(
            Named::Call(RefId(0), 1, &[RefId(1)]),
            Ok(Granted::Call(CallId(1))),
        ),
    ),
    (Vat::A, Step::Carries),
];

/// Vat B gives back the reference that it was given.
const ANSWERED: Steps<'static> = &[
    (
        Vat::B,
        Step::Tells(Told::Served(TaskId(0), Given::One(RefId(0)))),
    ),
    (
        Vat::B,
        Step::Asks(Ask::Answer(TaskId(0), &[RefId(0)]), DONE),
    ),
    (Vat::B, Step::Asks(Ask::DropRef(RefId(0)), DONE)),
    (Vat::B, Step::Carries),
];

/// Vat A finishes its calls, and drops what it has.
pub(crate) const LET_GO: Steps<'static> = &[
    (
        Vat::A,
        Step::Tells(Told::Ended(CallId(0), Came::Results, Given::One(RefId(2)))),
    ),
    (Vat::A, Step::Tells(RESOLVED)),
    (Vat::A, Step::Asks(Ask::Finish(CallId(0)), DONE)),
    (Vat::A, Step::Asks(Ask::DropRef(RefId(2)), DONE)),
    (
        Vat::A,
        Step::Tells(Told::Ended(CallId(1), Came::Results, Given::One(RefId(3)))),
    ),
    (Vat::A, Step::Asks(Ask::Finish(CallId(1)), DONE)),
    (Vat::A, Step::Asks(Ask::DropRef(RefId(3)), DONE)),
    (Vat::A, Step::Asks(Ask::DropRef(RefId(0)), DONE)),
    (Vat::A, Step::Asks(Ask::DropRef(RefId(1)), DONE)),
    (Vat::A, Step::Carries),
];

const RELEASED: Steps<'static> = &[
    (Vat::B, Step::Carries),
    (Vat::A, Step::Tells(Told::Released(ObjectId(1)))),
    (Vat::A, Step::Tells(Told::Nothing)),
    (Vat::B, Step::Tells(Told::Nothing)),
    (Vat::A, Step::SharesNothing),
    (Vat::B, Step::SharesNothing),
];

/// A call with a reference, answered and let go.
const CONVERSATION: [Steps<'static>; 5] = [REFERRED, ASKED, ANSWERED, LET_GO, RELEASED];

#[test]
fn pieces_of_any_length_say_the_same(rt: HostRuntime) {
    let whole = scene(&rt, rt.alloc(), [None, ROOT], 4_096, &CONVERSATION);
    for piece in 1..99 {
        let sent = scene(&rt, rt.alloc(), [None, ROOT], piece, &CONVERSATION);
        assert!(rt; sent == whole, "pieces of {piece}");
    }
}

/// Vat B answers, and then calls what it was given; vat A goes down last.
const ANSWERED_THEN_CALLED: Steps<'static> = &[
    (
        Vat::B,
        Step::Tells(Told::Served(TaskId(0), Given::One(RefId(0)))),
    ),
    (Vat::B, Step::Asks(Ask::Answer(TaskId(0), &[]), DONE)),
    (
        Vat::B,
        Step::Asks(Ask::Call(RefId(0), &[]), Ok(Granted::Call(CallId(0)))),
    ),
    (Vat::B, Step::Carries),
    (
        Vat::A,
        Step::Tells(Told::Ended(CallId(0), Came::Results, Given::One(RefId(2)))),
    ),
    (Vat::A, Step::Tells(RESOLVED)),
    (
        Vat::A,
        Step::Tells(Told::Ended(CallId(1), Came::Results, Given::Nothing)),
    ),
    (Vat::A, Step::Tells(Told::Served(TaskId(0), Given::Nothing))),
    (Vat::A, Step::Shuts(5)),
    (Vat::A, Step::Tells(Told::Down(5))),
    (Vat::A, Step::Tells(Told::Nothing)),
];

/// What came in one piece of bytes is told in the order in which it came.
#[test]
fn events_come_in_order(rt: HostRuntime) {
    let parts = [REFERRED, ASKED, ANSWERED_THEN_CALLED];
    scene(&rt, rt.alloc(), [None, ROOT], 4_096, &parts);
}

/// Calls of so many numbers have room in a frame, or have none.
const LARGE: Steps<'static> = &[
    (
        Vat::A,
        Step::Calls(
            Named::Call(RefId(0), 65_502, &[]),
            Ok(Granted::Call(CallId(1))),
        ),
    ),
    (
        Vat::A,
        Step::Calls(Named::Call(RefId(0), 65_505, &[]), Err(Refusal::Full)),
    ),
    (Vat::A, Step::Carries),
    (Vat::A, Step::IsUp),
];

#[test]
fn a_payload_too_large_for_a_frame_is_refused(rt: HostRuntime) {
    let sent = scene(&rt, rt.alloc(), [None, None], 0, &[REFERRED, LARGE]);
    assert!(rt; 8 * 65_502 < sent[1]);
}

/// Vat A's call is answered with a broken reference and one to an object, by the calls of these names.
const BROKEN: Steps<'static> = &[
    (
        Vat::A,
        Step::Calls(Named::Call(RefId(0), 1, &[]), Ok(Granted::Call(CallId(1)))),
    ),
    (Vat::A, Step::Carries),
    (Vat::B, Step::Tells(Told::Served(TaskId(0), Given::Nothing))),
    (
        Vat::B,
        Step::Calls(Named::Promise, Ok(Granted::Promise(PromiseId(0), RefId(0)))),
    ),
    (Vat::B, Step::Calls(Named::Reject(PromiseId(0)), DONE)),
    (
        Vat::B,
        Step::Calls(Named::Host(ObjectId(1)), Ok(Granted::Reference(RefId(1)))),
    ),
    (
        Vat::B,
        Step::Calls(Named::Answer(TaskId(0), &[RefId(0), RefId(1)]), DONE),
    ),
    (Vat::B, Step::Carries),
    (
        Vat::A,
        Step::Tells(Told::Ended(CallId(0), Came::Results, Given::One(RefId(2)))),
    ),
    (Vat::A, Step::Tells(RESOLVED)),
    (
        Vat::A,
        Step::Tells(Told::Ended(CallId(1), Came::NullFirst, Given::More)),
    ),
];

/// A broken reference goes as null, and what stands behind it keeps its place.
#[test]
fn a_broken_reference_goes_as_null(rt: HostRuntime) {
    scene(&rt, rt.alloc(), [None, ROOT], 99, &[REFERRED, BROKEN]);
}

/// Bootstrap, question 0.
const BOOTSTRAP: [u8; 48] = [
    0, 0, 0, 0, 5, 0, 0, 0, 0, 0, 0, 0, 1, 0, 1, 0, 8, 0, 0, 0, 0, 0, 0, 0, 0, 0, 0, 0, 1, 0, 1, 0,
    0, 0, 0, 0, 0, 0, 0, 0, 0, 0, 0, 0, 0, 0, 0, 0,
];

/// A Call to what question 0 gives, question 1, whose results are to stay (`sendResultsTo.yourself`).
const TAIL_CALL: [u8; 128] = [
    0, 0, 0, 0, 15, 0, 0, 0, 0, 0, 0, 0, 1, 0, 1, 0, 2, 0, 0, 0, 0, 0, 0, 0, 0, 0, 0, 0, 3, 0, 3,
    0, 1, 0, 0, 0, 2, 0, 1, 0, 1, 0, 0, 0, 0, 0, 0, 0, 0, 0, 0, 0, 0, 0, 0, 0, 8, 0, 0, 0, 1, 0, 1,
    0, 20, 0, 0, 0, 0, 0, 2, 0, 0, 0, 0, 0, 0, 0, 0, 0, 0, 0, 0, 0, 1, 0, 0, 0, 0, 0, 0, 0, 1, 0,
    1, 0, 0, 0, 0, 0, 0, 0, 0, 0, 0, 0, 0, 0, 0, 0, 0, 0, 0, 0, 0, 0, 0, 0, 0, 0, 0, 0, 0, 0, 0, 0,
    0, 0,
];

/// A Return for question 0 of the other side, with the results of question 1 (`takeFromOtherQuestion`).
const TAKE: [u8; 56] = [
    0, 0, 0, 0, 6, 0, 0, 0, 0, 0, 0, 0, 1, 0, 1, 0, 3, 0, 0, 0, 0, 0, 0, 0, 0, 0, 0, 0, 2, 0, 1, 0,
    0, 0, 0, 0, 0, 0, 4, 0, 1, 0, 0, 0, 0, 0, 0, 0, 0, 0, 0, 0, 0, 0, 0, 0,
];

/// Finishes of questions 1 and 0.
const FINISHES: [u8; 80] = [
    0, 0, 0, 0, 4, 0, 0, 0, 0, 0, 0, 0, 1, 0, 1, 0, 4, 0, 0, 0, 0, 0, 0, 0, 0, 0, 0, 0, 1, 0, 0, 0,
    1, 0, 0, 0, 0, 0, 0, 0, 0, 0, 0, 0, 4, 0, 0, 0, 0, 0, 0, 0, 1, 0, 1, 0, 4, 0, 0, 0, 0, 0, 0, 0,
    0, 0, 0, 0, 1, 0, 0, 0, 0, 0, 0, 0, 0, 0, 0, 0,
];

/// The peer asks for the bootstrap object, makes a tail call to it, and gives that call's results as those of this vat's own call.
const TAIL: Steps<'static> = &[
    (
        Vat::A,
        Step::Asks(Ask::Bootstrap, Ok(Granted::Call(CallId(0)))),
    ),
    (Vat::A, Step::Hears(&BOOTSTRAP)),
    (Vat::A, Step::Hears(&TAIL_CALL)),
    (Vat::A, Step::Hears(&TAKE)),
    (Vat::A, Step::Tells(Told::Served(TaskId(0), Given::Nothing))),
    (Vat::A, Step::Asks(Ask::Answer(TaskId(0), &[]), DONE)),
    (
        Vat::A,
        Step::Tells(Told::Ended(CallId(0), Came::Results, Given::Nothing)),
    ),
    (Vat::A, Step::Asks(Ask::Finish(CallId(0)), DONE)),
    (Vat::A, Step::Hears(&FINISHES)),
    (Vat::A, Step::Tells(Told::Nothing)),
    (Vat::A, Step::SharesNothing),
];

#[test]
fn a_tail_call_ends_an_own_call(rt: HostRuntime) {
    scene(&rt, rt.alloc(), [ROOT, None], 0, &[TAIL]);
}
