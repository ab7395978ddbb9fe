//! A call with a reference, answered and let go, by two hosts: to be run with each allocation refused, by
//! `rt try --test --fail-alloc`.
use crate::tests::asks::{Ask, command_of};
use crate::tests::conversations::{LET_GO, REFERRED};
use crate::tests::scene::{DONE, ROOT, Step, Steps};
use crate::tests::told::{Given, Told, said_by};
use rpc_machine::{Command, Granted, Level, Refusal};
use rpc_msg::{CallId, ObjectId, RefId, TaskId, Vat};
use std::alloc::Global;
use std::process::Abort;
use vat::{Host, exchange};

/// At most one allocation is refused, so what is refused is done the second time.
fn host(rt: &impl Abort, alloc: Global, vat: Vat, root: Option<ObjectId>) -> Host {
    if let Ok(host) = Host::new(alloc, vat, Level::One, root) {
        return host;
    }
    match Host::new(alloc, vat, Level::One, root) {
        Ok(host) => host,
        Err(_) => panic!(rt; "refused twice"),
    }
}

fn command(alloc: Global, ask: Ask) -> Option<Command> {
    match command_of(alloc, ask) {
        Some(command) => Some(command),
        None => command_of(alloc, ask),
    }
}

/// What a command grants. One that is refused for lack of memory leaves nothing to do, comes back, and is taken then.
fn obeys(alloc: Global, host: &mut Host, ask: Ask) -> Option<Granted> {
    let command = command(alloc, ask)?;
    let was_idle = host.is_idle();
    match host.command(command) {
        Ok(granted) => Some(granted),
        Err(refused) if refused.refusal == Refusal::Memory && host.is_idle() == was_idle => {
            host.command(refused.back).ok()
        }
        Err(_) => None,
    }
}

fn next(host: &mut Host) -> Told {
    match host.next_event() {
        Some(event) => said_by(&event),
        None => Told::Nothing,
    }
}

fn holds(alloc: Global, host: &mut Host, step: &Step<'_>) -> bool {
    match step {
        Step::Asks(ask, Ok(wanted)) => obeys(alloc, host, *ask) == Some(*wanted),
        Step::Tells(wanted) => next(host) == *wanted,
        Step::SharesNothing => host.core().shares_nothing(),
        _ => false,
    }
}

/// Whether running out of memory took one of the two down, and its Abort the other.
fn are_down(rt: &impl Abort, a: &mut Host, b: &mut Host) -> bool {
    exchange(a, b, 9);
    match (a.core().down(), b.core().down()) {
        (None, None) => false,
        (Some(33), Some(_)) | (Some(_), Some(33)) => true,
        _ => panic!(rt; "down otherwise"),
    }
}

/// Whether all steps were taken, since neither vat went down.
fn play(rt: &impl Abort, alloc: Global, a: &mut Host, b: &mut Host, steps: Steps<'_>) -> bool {
    for (at, (vat, step)) in steps.iter().enumerate() {
        if matches!(step, Step::Carries) {
            if are_down(rt, a, b) {
                return false;
            }
            continue;
        }
        let holds = match vat {
            Vat::A => holds(alloc, a, step),
            Vat::B => holds(alloc, b, step),
        };
        assert!(rt; holds, "step {at}");
    }
    true
}

const ASKED: Steps<'static> = &[
    (
        Vat::A,
        Step::Asks(
            Ask::Call(RefId(0), &[RefId(1)]),
            Ok(Granted::Call(CallId(1))),
        ),
    ),
    (Vat::A, Step::Carries),
];

const ANSWERED: Steps<'static> = &[
    (
        Vat::B,
        Step::Tells(Told::Served(TaskId(0), Given::One(RefId(0)))),
    ),
    (
        Vat::B,
        Step::Asks(Ask::Answer(TaskId(0), &[RefId(0)]), DONE),
    ),
    (Vat::B, Step::Carries),
    (Vat::B, Step::Asks(Ask::DropRef(RefId(0)), DONE)),
];

const SHARE_NOTHING: Steps<'static> = &[
    (Vat::A, Step::SharesNothing),
    (Vat::B, Step::SharesNothing),
];

#[test]
fn a_refused_allocation_is_told(rt: HostRuntime) {
    let mut a = host(&rt, rt.alloc(), Vat::A, None);
    let mut b = host(&rt, rt.alloc(), Vat::B, ROOT);
    for steps in [REFERRED, ASKED, ANSWERED, LET_GO, SHARE_NOTHING] {
        if !play(&rt, rt.alloc(), &mut a, &mut b, steps) {
            break;
        }
    }
}
