//! What is told beside calls: objects that are released, and places of the peer that are known.
use crate::tests::asks::Ask;
use crate::tests::conversations::REFERRED;
use crate::tests::scene::{DONE, ROOT, Step, Steps, scene};
use crate::tests::told::{Came, Given, RESOLVED, Told};
use rpc_machine::Granted;
use rpc_msg::{CallId, ExportId, ObjectId, PromiseId, RefId, TaskId, Vat};
use vat_connection::PeerPlace;

/// Vat B is given an object of A, and drops it. A drops its own references, and has the Release.
const GIVEN_BACK: Steps<'static> = &[
    (
        Vat::A,
        Step::Asks(
            Ask::Call(RefId(0), &[RefId(1)]),
            Ok(Granted::Call(CallId(1))),
        ),
    ),
    (Vat::A, Step::Asks(Ask::DropRef(RefId(1)), DONE)),
    (Vat::A, Step::Carries),
    (
        Vat::B,
        Step::Tells(Told::Served(TaskId(0), Given::One(RefId(0)))),
    ),
    (Vat::B, Step::Asks(Ask::Answer(TaskId(0), &[]), DONE)),
    (Vat::B, Step::Carries),
    (
        Vat::A,
        Step::Tells(Told::Ended(CallId(0), Came::Results, Given::One(RefId(2)))),
    ),
    (Vat::A, Step::Tells(RESOLVED)),
    (
        Vat::A,
        Step::Tells(Told::Ended(CallId(1), Came::Results, Given::Nothing)),
    ),
    (Vat::A, Step::Tells(Told::Nothing)),
    (Vat::A, Step::Asks(Ask::Finish(CallId(1)), DONE)),
    (Vat::A, Step::Carries),
    (Vat::B, Step::Asks(Ask::DropRef(RefId(0)), DONE)),
    (Vat::B, Step::Carries),
];

const TOLD_ONCE: Steps<'static> = &[
    (Vat::A, Step::Tells(Told::Released(ObjectId(1)))),
    (Vat::A, Step::Tells(Told::Nothing)),
];

#[test]
fn an_object_is_released_once(rt: HostRuntime) {
    scene(
        &rt,
        rt.alloc(),
        [None, ROOT],
        99,
        &[REFERRED, GIVEN_BACK, TOLD_ONCE],
    );
}

/// The object is hosted again before it is told, and given up again.
const HOSTED_AGAIN: Steps<'static> = &[
    (
        Vat::A,
        Step::Asks(Ask::Host(ObjectId(1)), Ok(Granted::Reference(RefId(3)))),
    ),
    (Vat::A, Step::Tells(Told::Nothing)),
    (Vat::A, Step::Asks(Ask::DropRef(RefId(3)), DONE)),
];

#[test]
fn an_object_that_is_hosted_again_is_not_released(rt: HostRuntime) {
    let parts = [REFERRED, GIVEN_BACK, HOSTED_AGAIN, TOLD_ONCE];
    scene(&rt, rt.alloc(), [None, ROOT], 99, &parts);
}

/// The bootstrap object of B was named by an export, a reference and another, and is named no more.
const ROOT_UNNAMED: Steps<'static> = &[
    (
        Vat::B,
        Step::Asks(Ask::Host(ObjectId(0)), Ok(Granted::Reference(RefId(0)))),
    ),
    (Vat::B, Step::Asks(Ask::DropRef(RefId(0)), DONE)),
    (Vat::A, Step::Carries),
    (Vat::B, Step::Carries),
    (
        Vat::A,
        Step::Tells(Told::Ended(CallId(0), Came::Results, Given::One(RefId(2)))),
    ),
    (Vat::A, Step::Tells(RESOLVED)),
    (Vat::A, Step::Asks(Ask::Finish(CallId(0)), DONE)),
    (Vat::A, Step::Asks(Ask::DropRef(RefId(0)), DONE)),
    (Vat::A, Step::Asks(Ask::DropRef(RefId(2)), DONE)),
    (Vat::A, Step::Carries),
    (Vat::B, Step::SharesNothing),
    (Vat::B, Step::Tells(Told::Nothing)),
];

#[test]
fn the_bootstrap_object_is_not_released(rt: HostRuntime) {
    scene(&rt, rt.alloc(), [None, ROOT], 99, &[REFERRED, ROOT_UNNAMED]);
}

/// Vat A is given a promise of B, which B resolves to an object of its own.
const PROMISED: Steps<'static> = &[
    (
        Vat::A,
        Step::Asks(Ask::Call(RefId(0), &[]), Ok(Granted::Call(CallId(1)))),
    ),
    (Vat::A, Step::Carries),
    (Vat::B, Step::Tells(Told::Served(TaskId(0), Given::Nothing))),
    (
        Vat::B,
        Step::Asks(Ask::Promise, Ok(Granted::Promise(PromiseId(0), RefId(0)))),
    ),
    (
        Vat::B,
        Step::Asks(Ask::Answer(TaskId(0), &[RefId(0)]), DONE),
    ),
    (Vat::B, Step::Carries),
    (
        Vat::A,
        Step::Tells(Told::Ended(CallId(0), Came::Results, Given::One(RefId(2)))),
    ),
    (Vat::A, Step::Tells(RESOLVED)),
    (
        Vat::A,
        Step::Tells(Told::Ended(CallId(1), Came::Results, Given::One(RefId(3)))),
    ),
    (Vat::A, Step::Tells(Told::Nothing)),
    (
        Vat::B,
        Step::Asks(Ask::Host(ObjectId(5)), Ok(Granted::Reference(RefId(1)))),
    ),
    (
        Vat::B,
        Step::Asks(Ask::Resolve(PromiseId(0), RefId(1)), DONE),
    ),
    (Vat::B, Step::Carries),
    (
        Vat::A,
        Step::Tells(Told::Resolved(PeerPlace::Import(ExportId(1)))),
    ),
    (Vat::A, Step::Tells(Told::Nothing)),
];

#[test]
fn a_promise_of_the_peer_is_resolved(rt: HostRuntime) {
    scene(&rt, rt.alloc(), [None, ROOT], 99, &[REFERRED, PROMISED]);
}
