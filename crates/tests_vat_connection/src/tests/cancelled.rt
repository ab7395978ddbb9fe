//! Calls whose Finish comes before their Return.
use crate::tests::asks::Ask;
use crate::tests::conversations::REFERRED;
use crate::tests::scene::{DONE, ROOT, Step, Steps, scene};
use crate::tests::told::{Given, Told};
use rpc_machine::Granted;
use rpc_msg::{CallId, RefId, TaskId, Vat};

/// Vat A calls the bootstrap object of B, which serves it.
const SERVED: Steps<'static> = &[
    (
        Vat::A,
        Step::Asks(Ask::Call(RefId(0), &[]), Ok(Granted::Call(CallId(1)))),
    ),
    (Vat::A, Step::Carries),
    (Vat::B, Step::Tells(Told::Served(TaskId(0), Given::Nothing))),
    (Vat::B, Step::Tells(Told::Nothing)),
];

const LET_GO: Steps<'static> = &[
    (Vat::A, Step::Asks(Ask::Finish(CallId(1)), DONE)),
    (Vat::A, Step::Carries),
    (Vat::B, Step::Tells(Told::Cancelled(TaskId(0)))),
    (Vat::B, Step::Tells(Told::Nothing)),
];

/// The Return that is owed goes out all the same.
const ANSWERED: Steps<'static> = &[
    (Vat::B, Step::Asks(Ask::Answer(TaskId(0), &[]), DONE)),
    (Vat::B, Step::Tells(Told::Nothing)),
    (Vat::B, Step::HasOutgoing(true)),
    (Vat::B, Step::Carries),
];

#[test]
fn a_task_is_cancelled_once(rt: HostRuntime) {
    scene(
        &rt,
        rt.alloc(),
        [None, ROOT],
        99,
        &[REFERRED, SERVED, LET_GO, ANSWERED],
    );
}

/// The Finish comes in one piece with the call.
const LET_GO_AT_ONCE: Steps<'static> = &[
    (
        Vat::A,
        Step::Asks(Ask::Call(RefId(0), &[]), Ok(Granted::Call(CallId(1)))),
    ),
    (Vat::A, Step::Asks(Ask::Finish(CallId(1)), DONE)),
    (Vat::A, Step::Carries),
    (Vat::B, Step::Tells(Told::Served(TaskId(0), Given::Nothing))),
    (Vat::B, Step::Tells(Told::Cancelled(TaskId(0)))),
    (Vat::B, Step::Tells(Told::Nothing)),
];

#[test]
fn a_task_is_served_before_it_is_cancelled(rt: HostRuntime) {
    scene(
        &rt,
        rt.alloc(),
        [None, ROOT],
        999,
        &[REFERRED, LET_GO_AT_ONCE, ANSWERED],
    );
}

/// A call waits at B for the results of the first.
const AWAITED: Steps<'static> = &[
    (
        Vat::A,
        Step::Asks(Ask::Call(RefId(0), &[]), Ok(Granted::Call(CallId(1)))),
    ),
    (
        Vat::A,
        Step::Asks(Ask::Field(CallId(1)), Ok(Granted::Reference(RefId(2)))),
    ),
    (
        Vat::A,
        Step::Asks(Ask::Call(RefId(2), &[]), Ok(Granted::Call(CallId(2)))),
    ),
    (Vat::A, Step::Asks(Ask::DropRef(RefId(2)), DONE)),
    (Vat::A, Step::Asks(Ask::Finish(CallId(1)), DONE)),
    (Vat::A, Step::Carries),
    (Vat::B, Step::Tells(Told::Served(TaskId(0), Given::Nothing))),
    (Vat::B, Step::Tells(Told::Nothing)),
];

#[test]
fn a_task_whose_results_are_awaited_is_not_cancelled(rt: HostRuntime) {
    scene(
        &rt,
        rt.alloc(),
        [None, ROOT],
        99,
        &[REFERRED, AWAITED, ANSWERED],
    );
}

/// The Finish comes behind the Return.
const ANSWERED_BEFORE: Steps<'static> = &[
    (Vat::B, Step::Asks(Ask::Answer(TaskId(0), &[]), DONE)),
    (Vat::A, Step::Asks(Ask::Finish(CallId(1)), DONE)),
    (Vat::A, Step::Carries),
    (Vat::B, Step::Tells(Told::Nothing)),
];

#[test]
fn a_task_that_is_answered_is_not_cancelled(rt: HostRuntime) {
    scene(
        &rt,
        rt.alloc(),
        [None, ROOT],
        99,
        &[REFERRED, SERVED, ANSWERED_BEFORE],
    );
}
