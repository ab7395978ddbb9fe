//! What becomes of the own calls of a vat that goes down.
use crate::tests::asks::{Ask, Named, calls};
use crate::tests::scene::{DONE, ROOT, Step, Steps, scene};
use crate::tests::told::{Came, Given, RESOLVED, Told, next};
use rpc_machine::{Granted, Level, Refusal};
use rpc_msg::{CallId, RefId, TaskId, Vat};
use std::alloc::Global;
use std::process::Abort;
use vat_connection::Connection;

/// Vat A has the peer's object, and a call to it that has ended. That it was given the object is told before.
const ONE_OVER: Steps<'static> = &[
    (
        Vat::A,
        Step::Asks(Ask::Bootstrap, Ok(Granted::Call(CallId(0)))),
    ),
    (
        Vat::A,
        Step::Calls(Named::ResultOf(CallId(0)), Ok(Granted::Reference(RefId(0)))),
    ),
    (
        Vat::A,
        Step::Calls(Named::Call(RefId(0), 1, &[]), Ok(Granted::Call(CallId(1)))),
    ),
    (Vat::A, Step::Carries),
    (Vat::B, Step::Tells(Told::Served(TaskId(0), Given::Nothing))),
    (Vat::B, Step::Asks(Ask::Answer(TaskId(0), &[]), DONE)),
    (Vat::B, Step::Carries),
    (
        Vat::A,
        Step::Tells(Told::Ended(CallId(0), Came::Results, Given::One(RefId(1)))),
    ),
    (Vat::A, Step::Tells(RESOLVED)),
];

/// A bootstrap and a call are open. One that was made between these two was finished.
const TWO_OPEN: Steps<'static> = &[
    (
        Vat::A,
        Step::Asks(Ask::Bootstrap, Ok(Granted::Call(CallId(2)))),
    ),
    (
        Vat::A,
        Step::Calls(Named::Call(RefId(0), 1, &[]), Ok(Granted::Call(CallId(3)))),
    ),
    (
        Vat::A,
        Step::Calls(Named::Call(RefId(0), 1, &[]), Ok(Granted::Call(CallId(4)))),
    ),
    (Vat::A, Step::Calls(Named::Finish(CallId(3)), DONE)),
];

/// How a vat goes down: its stream ends, it is shut, what comes is no frame, its peer is shut. And with which number.
const FALLS: [(Steps<'static>, Steps<'static>); 4] = [
    (
        &[(Vat::A, Step::Ends)],
        &[(Vat::A, Step::Tells(Told::Down(0)))],
    ),
    (
        &[(Vat::A, Step::Shuts(7))],
        &[(Vat::A, Step::Tells(Told::Down(7)))],
    ),
    (
        &[(Vat::A, Step::Hears(&[16, 0, 0, 0]))],
        &[(Vat::A, Step::Tells(Told::Down(3)))],
    ),
    (
        &[(Vat::B, Step::Shuts(9)), (Vat::B, Step::Carries)],
        &[(Vat::A, Step::Tells(Told::Aborted(9)))],
    ),
];

const ARE_TOLD: Steps<'static> = &[
    (
        Vat::A,
        Step::Tells(Told::Ended(CallId(1), Came::Results, Given::Nothing)),
    ),
    (
        Vat::A,
        Step::Tells(Told::Ended(CallId(2), Came::CutOff, Given::Nothing)),
    ),
    (
        Vat::A,
        Step::Tells(Told::Ended(CallId(4), Came::CutOff, Given::Nothing)),
    ),
];

const NO_MORE: Steps<'static> = &[(Vat::A, Step::Tells(Told::Nothing))];

#[test]
fn open_calls_end_disconnected(rt: HostRuntime) {
    for (falls, down) in FALLS {
        let parts = [ONE_OVER, TWO_OPEN, falls, ARE_TOLD, down, NO_MORE];
        scene(&rt, rt.alloc(), [None, ROOT], 4_096, &parts);
    }
}

/// Whether a bootstrap object is asked for under that number, a second time if the first was refused for memory.
fn makes(alloc: Global, connection: &mut Connection, number: u64) -> bool {
    let mut asked = calls(alloc, connection, Named::Bootstrap);
    if asked == Some(Err(Refusal::Memory)) {
        asked = calls(alloc, connection, Named::Bootstrap);
    }
    asked == Some(Ok(Granted::Call(CallId(number))))
}

/// Each of the forty calls is cut off, at most one without words.
fn cuts_off_each(rt: &impl Abort, connection: &mut Connection) {
    let mut without_words = false;
    for number in 0..40 {
        match next(connection) {
            Told::Ended(CallId(call), Came::CutOff, Given::Nothing) if call == number => {}
            Told::Ended(CallId(call), Came::CutOffWithoutWords, Given::Nothing)
                if call == number && !without_words => {
                without_words = true;
            }
            _ => panic!(rt; "call {number}"),
        }
    }
}

fn ends_each(rt: &impl Abort, alloc: Global, connection: &mut Connection) {
    for number in 0..40 {
        assert!(rt; makes(alloc, connection, number), "call {number}");
    }
    connection.shut(7);
    cuts_off_each(rt, connection);
    assert!(rt; next(connection) == Told::Down(7));
}

/// Holds whichever allocation is refused: run it with `rt try --test --fail-alloc N` for each N. At most one is.
#[test]
fn each_call_that_is_made_ends(rt: HostRuntime) {
    if let Ok(mut a) = Connection::new(rt.alloc(), Vat::A, Level::One, None) {
        ends_each(&rt, rt.alloc(), &mut a);
    }
}
