//! A load above the limits: what comes waits.
use crate::tests::asks::{Ask, Named};
use crate::tests::scene::{DONE, ROOT, Step, Steps, scene};
use crate::tests::told::{Came, Given, RESOLVED, Told};
use rpc_machine::Granted;
use rpc_msg::{CallId, RefId, TaskId, Vat};

const NO_LIMIT: u64 = u64::MAX;

/// A frame of a Bootstrap: its table, the root's pointer and two words, and two words of the Bootstrap.
const BOOTSTRAP_WORDS: u64 = 6;

const ASKED: Steps<'static> = &[
    (
        Vat::A,
        Step::Asks(Ask::Bootstrap, Ok(Granted::Call(CallId(0)))),
    ),
    (
        Vat::A,
        Step::Calls(Named::ResultOf(CallId(0)), Ok(Granted::Reference(RefId(0)))),
    ),
    (
        Vat::A,
        Step::Calls(Named::Call(RefId(0), 1, &[]), Ok(Granted::Call(CallId(1)))),
    ),
];

/// The Bootstrap alone is above the limit, so the Call behind it waits until all events were told; and then it is above the limit
/// until its Return was said.
const WAITED: Steps<'static> = &[
    (Vat::B, Step::Limits(BOOTSTRAP_WORDS - 1, NO_LIMIT)),
    (Vat::B, Step::WantsBytes(true)),
    (Vat::A, Step::Carries),
    (Vat::B, Step::Loads(BOOTSTRAP_WORDS)),
    (Vat::B, Step::WantsBytes(false)),
    (Vat::B, Step::Tells(Told::Nothing)),
    (Vat::B, Step::Loads(0)),
    (Vat::B, Step::WantsBytes(false)),
    (Vat::B, Step::Tells(Told::Served(TaskId(0), Given::Nothing))),
    (Vat::B, Step::WantsBytes(false)),
    (Vat::B, Step::Tells(Told::Nothing)),
    (Vat::B, Step::WantsBytes(false)),
    (Vat::B, Step::Asks(Ask::Answer(TaskId(0), &[]), DONE)),
    (Vat::B, Step::Carries),
    (Vat::B, Step::Loads(0)),
    (Vat::B, Step::WantsBytes(true)),
    (
        Vat::A,
        Step::Tells(Told::Ended(CallId(0), Came::Results, Given::One(RefId(1)))),
    ),
    (Vat::A, Step::Tells(RESOLVED)),
    (
        Vat::A,
        Step::Tells(Told::Ended(CallId(1), Came::Results, Given::Nothing)),
    ),
];

#[test]
fn what_comes_above_the_limit_waits(rt: HostRuntime) {
    let sent = scene(&rt, rt.alloc(), [None, ROOT], 7, &[ASKED, WAITED]);
    assert!(rt; sent[1] > 0);
}

/// The stream ends while a Call waits: it is heard before the vat goes down.
const ENDED: Steps<'static> = &[
    (Vat::B, Step::Limits(BOOTSTRAP_WORDS - 1, NO_LIMIT)),
    (Vat::A, Step::Carries),
    (Vat::B, Step::Ends),
    (Vat::B, Step::WantsBytes(false)),
    (Vat::B, Step::IsUp),
    (Vat::B, Step::Tells(Told::Nothing)),
    (Vat::B, Step::Tells(Told::Served(TaskId(0), Given::Nothing))),
    (Vat::B, Step::Tells(Told::Down(0))),
    (Vat::B, Step::Tells(Told::Nothing)),
];

#[test]
fn what_waits_is_heard_before_the_end(rt: HostRuntime) {
    let sent = scene(&rt, rt.alloc(), [None, ROOT], 4096, &[ASKED, ENDED]);
    assert!(rt; sent[1] > 0);
}

/// While bytes wait to be sent, what comes waits; the answer to the Bootstrap goes out, and then the Call is heard.
const UNSENT: Steps<'static> = &[
    (Vat::B, Step::Limits(NO_LIMIT, 0)),
    (Vat::A, Step::Carries),
    (Vat::B, Step::WantsBytes(false)),
    (Vat::B, Step::Tells(Told::Nothing)),
    (Vat::B, Step::HasOutgoing(true)),
    (Vat::B, Step::Carries),
    (Vat::B, Step::WantsBytes(false)),
    (Vat::B, Step::Tells(Told::Served(TaskId(0), Given::Nothing))),
    (Vat::B, Step::WantsBytes(true)),
];

#[test]
fn what_comes_waits_for_what_goes_out(rt: HostRuntime) {
    let sent = scene(&rt, rt.alloc(), [None, ROOT], 4096, &[ASKED, UNSENT]);
    assert!(rt; sent[1] > 0);
}

/// A frame of a Bootstrap of question 0.
const BOOTSTRAP: [u8; 48] = [
    0, 0, 0, 0, 5, 0, 0, 0, 0, 0, 0, 0, 1, 0, 1, 0, 8, 0, 0, 0, 0, 0, 0, 0, 0, 0, 0, 0, 1, 0, 1, 0,
    0, 0, 0, 0, 0, 0, 0, 0, 0, 0, 0, 0, 0, 0, 0, 0,
];

/// A Call of question 7 to the results of question 0 (`rpc.capnp`). Its content is a struct of two pointers, which both lead to the
/// next such struct. There are 14 of them, of 2 words each in the frame, and 16,383 in the content.
const SHARED: [u8; 336] = [
    0, 0, 0, 0, 41, 0, 0, 0, 0, 0, 0, 0, 1, 0, 1, 0, 2, 0, 0, 0, 0, 0, 0, 0, 0, 0, 0, 0, 3, 0, 3,
    0, 7, 0, 0, 0, 0, 0, 0, 0, 0, 0, 0, 0, 0, 0, 0, 0, 0, 0, 0, 0, 0, 0, 0, 0, 8, 0, 0, 0, 1, 0, 1,
    0, 12, 0, 0, 0, 0, 0, 2, 0, 0, 0, 0, 0, 0, 0, 0, 0, 0, 0, 0, 0, 1, 0, 0, 0, 0, 0, 0, 0, 0, 0,
    0, 0, 4, 0, 0, 0, 0, 0, 2, 0, 0, 0, 0, 0, 0, 0, 0, 0, 4, 0, 0, 0, 0, 0, 2, 0, 0, 0, 0, 0, 0, 0,
    2, 0, 4, 0, 0, 0, 0, 0, 2, 0, 0, 0, 0, 0, 0, 0, 2, 0, 4, 0, 0, 0, 0, 0, 2, 0, 0, 0, 0, 0, 0, 0,
    2, 0, 4, 0, 0, 0, 0, 0, 2, 0, 0, 0, 0, 0, 0, 0, 2, 0, 4, 0, 0, 0, 0, 0, 2, 0, 0, 0, 0, 0, 0, 0,
    2, 0, 4, 0, 0, 0, 0, 0, 2, 0, 0, 0, 0, 0, 0, 0, 2, 0, 4, 0, 0, 0, 0, 0, 2, 0, 0, 0, 0, 0, 0, 0,
    2, 0, 4, 0, 0, 0, 0, 0, 2, 0, 0, 0, 0, 0, 0, 0, 2, 0, 4, 0, 0, 0, 0, 0, 2, 0, 0, 0, 0, 0, 0, 0,
    2, 0, 4, 0, 0, 0, 0, 0, 2, 0, 0, 0, 0, 0, 0, 0, 2, 0, 4, 0, 0, 0, 0, 0, 2, 0, 0, 0, 0, 0, 0, 0,
    2, 0, 4, 0, 0, 0, 0, 0, 2, 0, 0, 0, 0, 0, 0, 0, 2, 0, 4, 0, 0, 0, 0, 0, 2, 0, 0, 0, 0, 0, 0, 0,
    2, 0, 0, 0, 0, 0, 0, 0, 0, 0, 0, 0, 0, 0, 0, 0, 0, 0,
];

/// The words of its content, with its table and the root's pointer.
const SHARED_WORDS: u64 = 32_768;

/// Of 500 such Calls one is heard, since what is held of it is above the limit. Its frame alone is not.
const HELD: Steps<'static> = &[
    (Vat::B, Step::Limits(1000, NO_LIMIT)),
    (Vat::B, Step::Hears(&BOOTSTRAP)),
    (Vat::B, Step::Tells(Told::Nothing)),
    (Vat::B, Step::Loads(0)),
    (Vat::B, Step::HearsOften(&SHARED, 500)),
    (Vat::B, Step::Loads(SHARED_WORDS)),
    (Vat::B, Step::WantsBytes(false)),
    (Vat::B, Step::Tells(Told::Served(TaskId(0), Given::Nothing))),
    (Vat::B, Step::Tells(Told::Nothing)),
    (Vat::B, Step::Loads(SHARED_WORDS)),
    (Vat::B, Step::IsUp),
];

#[test]
fn contents_count_where_they_are_more_than_their_frame(rt: HostRuntime) {
    let sent = scene(&rt, rt.alloc(), [None, ROOT], 0, &[HELD]);
    assert!(rt; sent[0] == 0);
}
