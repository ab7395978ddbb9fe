//! A vat that has exports of the peer as imports: 4 was named as a promise, 5 as an object, and 9 is a promise of which a Resolve was
//! heard. It has no other.
use crate::tests::frames::{
    BOOTSTRAP, CALL, CALL_IN_FIRST_KINDS, CALL_IN_KINDS, CALL_WITH_HOSTED, CALL_WITH_PROMISE,
    RESOLVE_TO_EXCEPTION, RESOLVE_TO_HOSTED, RESOLVE_TO_NONE, RESOLVE_TO_PROMISE,
    RESOLVE_TO_RECEIVER, RESULTS_IN_FIRST_KINDS, RESULTS_IN_KINDS, TAIL_CALL_IN_KINDS,
};
use crate::tests::{Frame, Heard, envelope, is_heard};
use peer_kinds::{Kinds, Standing, hear_kinds};
use rpc_msg::{ExportId, Memory};
use std::alloc::Global;
use std::test::Fail;

/// A frame that comes, and what is heard.
const HEARD: [(Frame, Heard); 10] = [
    // Each kind of message with descriptors.
    (
        Frame(CALL_IN_KINDS, 3),
        Heard::Frame(Frame(CALL_IN_FIRST_KINDS, 3)),
    ),
    (
        Frame(TAIL_CALL_IN_KINDS, 3),
        Heard::TailCall(Frame(CALL_IN_FIRST_KINDS, 3)),
    ),
    (
        Frame(RESULTS_IN_KINDS, 3),
        Heard::Frame(Frame(RESULTS_IN_FIRST_KINDS, 3)),
    ),
    (
        Frame(RESOLVE_TO_HOSTED, 6),
        Heard::Frame(Frame(RESOLVE_TO_PROMISE, 6)),
    ),
    // One descriptor, in another kind and in the first one.
    (
        Frame(CALL_WITH_HOSTED, 3),
        Heard::Frame(Frame(CALL_WITH_PROMISE, 3)),
    ),
    (
        Frame(CALL_WITH_PROMISE, 3),
        Heard::Frame(Frame(CALL_WITH_PROMISE, 3)),
    ),
    // No descriptor.
    (Frame(CALL, 3), Heard::Frame(Frame(CALL, 3))),
    (Frame(BOOTSTRAP, 3), Heard::Frame(Frame(BOOTSTRAP, 3))),
    // A Resolve of a promise, and of one that has its Resolve.
    (
        Frame(RESOLVE_TO_NONE, 4),
        Heard::Frame(Frame(RESOLVE_TO_NONE, 4)),
    ),
    (
        Frame(RESOLVE_TO_PROMISE, 9),
        Heard::Frame(Frame(RESOLVE_TO_PROMISE, 9)),
    ),
];

/// A frame that is set aside, and what is given back of it.
const SET_ASIDE: [(Frame, Option<ExportId>); 5] = [
    (Frame(RESOLVE_TO_HOSTED, 5), Some(ExportId(4))),
    (Frame(RESOLVE_TO_PROMISE, 5), Some(ExportId(4))),
    (Frame(RESOLVE_TO_RECEIVER, 5), None),
    (Frame(RESOLVE_TO_NONE, 5), None),
    (Frame(RESOLVE_TO_EXCEPTION, 5), None),
];

fn standing(export: ExportId) -> Option<Standing> {
    match export.0 {
        4 => Some(Standing::Promise),
        5 => Some(Standing::Hosted),
        9 => Some(Standing::Resolved),
        _ => None,
    }
}

/// One allocation may be refused (`rt try --test --fail-alloc N`): the frame comes again then.
fn kinds(alloc: Global, frame: Frame) -> Result<Kinds, Fail> {
    let came = envelope(alloc, frame)?;
    match hear_kinds(alloc, came, standing) {
        Ok(kinds) => Ok(kinds),
        Err(Memory) => kinds_again(alloc, frame),
    }
}

fn kinds_again(alloc: Global, frame: Frame) -> Result<Kinds, Fail> {
    let came = envelope(alloc, frame)?;
    Ok(hear_kinds(alloc, came, standing)?)
}

fn is_kind(alloc: Global, kinds: Kinds, wanted: Heard) -> Result<bool, Fail> {
    match kinds {
        Kinds::Heard(came) => is_heard(alloc, came, wanted),
        Kinds::SetAside(_) => Ok(false),
    }
}

fn is_aside(kinds: Kinds, wanted: Option<ExportId>) -> bool {
    match kinds {
        Kinds::Heard(_) => false,
        Kinds::SetAside(given) => given == wanted,
    }
}

#[test]
fn each_name_is_heard_in_its_first_kind(rt: HostRuntime) -> Result<(), Fail> {
    for (came, wanted) in HEARD {
        let kinds = kinds(rt.alloc(), came)?;
        let is_kind = is_kind(rt.alloc(), kinds, wanted)?;
        assert!(rt; is_kind, "{} {}", came.0, came.1);
    }
    Ok(())
}

#[test]
fn a_resolve_of_an_object_is_set_aside(rt: HostRuntime) -> Result<(), Fail> {
    for (came, given) in SET_ASIDE {
        let kinds = kinds(rt.alloc(), came)?;
        assert!(rt; is_aside(kinds, given), "{} {}", came.0, came.1);
    }
    Ok(())
}
