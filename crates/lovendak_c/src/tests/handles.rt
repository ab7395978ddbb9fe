// Scenes of one handle and of two.
use crate::life::lovendak_version;
use crate::tests::asking::Call;
use crate::tests::payloads::NULL;
use crate::tests::telling::{Bytes, NONE, Tells};
use crate::tests::{FREE, MEET, SILENT, Step, Steps, Vat, play};
use lovendak_c_desk::Notice;

const EMPTY_OR_NOT: Steps = &[
    (Vat::A, Step::Does(Call::Bootstrap, 100)),
    (Vat::A, Step::Does(Call::New(2, 0, 0), 105)),
    (Vat::A, Step::Does(Call::New(1, 0, 0), 0)),
    (Vat::A, Step::Does(Call::New(1, 0, 0), 101)),
    (Vat::A, Step::Gives(Call::Bootstrap, 0)),
    (Vat::A, Step::Does(Call::Free, 0)),
    (Vat::A, Step::Does(Call::Free, 100)),
];

#[test]
fn a_handle_has_a_vat_or_is_empty(rt: HostRuntime) {
    assert!(rt; lovendak_version() == 2);
    play(&rt, rt.alloc(), &[EMPTY_OR_NOT]);
}

/// A call of method 3 of interface 8 of object 7.
const SERVED: Notice = Notice {
    kind: 1,
    method: 3,
    object: 7,
    interface_id: 8,
    ..SILENT
};

const NULL_SERVED: Tells = Tells {
    room: 200,
    code: 0,
    notice: SERVED,
    bytes: Bytes::These(&NULL),
    refs: &[],
};

const TOO_LITTLE_ROOM: Tells = Tells {
    room: 0,
    code: 103,
    notice: SERVED,
    bytes: Bytes::Many(16),
    refs: &[],
};

const CALLED: Steps = &[
    (Vat::A, Step::Gives(Call::Call(0, 0, &[]), 1)),
    (Vat::A, Step::Gives(Call::CallsMade(0), 1)),
    (Vat::A, Step::Carries),
    (Vat::B, Step::Next(TOO_LITTLE_ROOM)),
    (Vat::B, Step::Next(NULL_SERVED)),
    (Vat::B, Step::Next(NONE)),
];

#[test]
fn a_call_is_served(rt: HostRuntime) {
    play(&rt, rt.alloc(), &[MEET, CALLED, FREE]);
}

/// The bootstrap has its outcome, the peer's object.
const BOOTSTRAPPED: Tells = Tells {
    room: 200,
    code: 0,
    notice: Notice {
        kind: 2,
        refs_len: 1,
        ..SILENT
    },
    bytes: Bytes::Cap,
    refs: &[1],
};

/// The results of the bootstrap, question 0, are known.
const KNOWN: Tells = Tells {
    room: 0,
    code: 0,
    notice: Notice {
        kind: 6,
        place: 5,
        ..SILENT
    },
    bytes: Bytes::These(&[]),
    refs: &[],
};

const ANSWERED: Tells = Tells {
    room: 200,
    code: 0,
    notice: Notice {
        kind: 2,
        number: 1,
        ..SILENT
    },
    bytes: Bytes::These(&NULL),
    refs: &[],
};

const IS_ANSWERED: Steps = &[
    (Vat::A, Step::Gives(Call::Call(0, 0, &[]), 1)),
    (Vat::A, Step::Carries),
    (Vat::B, Step::Next(NULL_SERVED)),
    (Vat::B, Step::Does(Call::Answer(0), 0)),
    (Vat::B, Step::Does(Call::Answer(0), 6)),
    (Vat::B, Step::Carries),
    (Vat::A, Step::Next(BOOTSTRAPPED)),
    (Vat::A, Step::Next(KNOWN)),
    (Vat::A, Step::Does(Call::DropRef(1), 0)),
    (Vat::A, Step::Next(ANSWERED)),
];

#[test]
fn a_task_is_answered(rt: HostRuntime) {
    play(&rt, rt.alloc(), &[MEET, IS_ANSWERED, FREE]);
}

/// A Bootstrap has six words, so the Call behind it waits until the events were told.
const LIMITED: Steps = &[
    (Vat::B, Step::Does(Call::SetLimits(5, 1_000_000), 0)),
    (Vat::A, Step::Gives(Call::Call(0, 0, &[]), 1)),
    (Vat::A, Step::Carries),
    (Vat::B, Step::Gives(Call::Load, 6)),
    (Vat::B, Step::Gives(Call::WantsBytes, 0)),
    (Vat::B, Step::Next(NONE)),
    (Vat::B, Step::Next(NULL_SERVED)),
    (Vat::B, Step::Does(Call::Answer(0), 0)),
    (Vat::B, Step::Next(NONE)),
    (Vat::B, Step::Carries),
    (Vat::B, Step::Gives(Call::Load, 0)),
    (Vat::B, Step::Gives(Call::WantsBytes, 1)),
];

#[test]
fn what_comes_above_the_limit_waits(rt: HostRuntime) {
    play(&rt, rt.alloc(), &[MEET, LIMITED, FREE]);
}

const LET_GO: Steps = &[
    (Vat::A, Step::Carries),
    (Vat::B, Step::Carries),
    (Vat::A, Step::Next(BOOTSTRAPPED)),
    (Vat::A, Step::Next(KNOWN)),
    (Vat::A, Step::Does(Call::DropRef(1), 0)),
    (Vat::A, Step::Gives(Call::CloneRef(0), 2)),
    (Vat::A, Step::Does(Call::DropRef(0), 0)),
    (Vat::A, Step::Does(Call::DropRef(0), 4)),
    (Vat::A, Step::Does(Call::Finish(0), 0)),
    (Vat::A, Step::Gives(Call::SharesNothing, 0)),
    (Vat::A, Step::Does(Call::DropRef(2), 0)),
    (Vat::A, Step::CarriesWhatWaits),
    (Vat::B, Step::Gives(Call::SharesNothing, 1)),
];

#[test]
fn what_is_let_go_leaves_nothing(rt: HostRuntime) {
    play(&rt, rt.alloc(), &[MEET, LET_GO, FREE]);
}

/// Object 4 is released.
const RELEASED: Tells = Tells {
    room: 0,
    code: 0,
    notice: Notice {
        kind: 4,
        object: 4,
        ..SILENT
    },
    bytes: Bytes::These(&[]),
    refs: &[],
};

/// It was looked at that the object is released, and it is hosted again; and then it is released.
const HOSTED_AGAIN: Steps = &[
    (Vat::A, Step::Does(Call::New(1, 1, 7), 0)),
    (Vat::A, Step::Gives(Call::Host(4), 0)),
    (Vat::A, Step::Gives(Call::LeadsTo(0), 4)),
    (Vat::A, Step::Gives(Call::HasEvent, 0)),
    (Vat::A, Step::Does(Call::DropRef(0), 0)),
    (Vat::A, Step::Does(Call::LeadsTo(0), 4)),
    (Vat::A, Step::Gives(Call::HasEvent, 1)),
    (Vat::A, Step::Gives(Call::Host(4), 1)),
    (Vat::A, Step::Next(NONE)),
    (Vat::A, Step::Gives(Call::Host(7), 2)),
    (Vat::A, Step::Does(Call::DropRef(2), 0)),
    (Vat::A, Step::Does(Call::DropRef(1), 0)),
    (Vat::A, Step::Gives(Call::HasEvent, 1)),
    (Vat::A, Step::Next(RELEASED)),
    (Vat::A, Step::Next(NONE)),
    (Vat::A, Step::Does(Call::SetFinishes(1), 0)),
    (Vat::A, Step::Does(Call::SetFinishes(2), 105)),
    (Vat::A, Step::Gives(Call::Bootstrap, 0)),
    (Vat::A, Step::Gives(Call::Questions, 1)),
    (Vat::A, Step::Does(Call::Free, 0)),
];

#[test]
fn an_object_is_released(rt: HostRuntime) {
    play(&rt, rt.alloc(), &[HOSTED_AGAIN]);
}

const RESOLVED: Steps = &[
    (Vat::A, Step::Does(Call::New(1, 0, 0), 0)),
    (Vat::A, Step::Gives(Call::Host(4), 0)),
    (Vat::A, Step::Gives(Call::Promise, 1)),
    (Vat::A, Step::Does(Call::Resolve(0, 1), 8)),
    (Vat::A, Step::Does(Call::Resolve(0, 0), 0)),
    (Vat::A, Step::Does(Call::Resolve(0, 0), 7)),
    (Vat::A, Step::Does(Call::Free, 0)),
];

#[test]
fn a_promise_is_resolved_once(rt: HostRuntime) {
    play(&rt, rt.alloc(), &[RESOLVED]);
}

const BROKEN: Steps = &[
    (Vat::A, Step::Does(Call::New(1, 0, 0), 0)),
    (Vat::A, Step::Gives(Call::Promise, 0)),
    (Vat::A, Step::Does(Call::Reject(0, 4, b"broken"), 105)),
    (Vat::A, Step::Does(Call::Reject(0, 1, &[255]), 102)),
    (Vat::A, Step::Does(Call::Reject(0, 1, b"broken"), 0)),
    (Vat::A, Step::Gives(Call::Advance(0), 0)),
    (Vat::A, Step::Does(Call::Free, 0)),
];

#[test]
fn a_promise_is_broken(rt: HostRuntime) {
    play(&rt, rt.alloc(), &[BROKEN]);
}

/// A call with two references.
const TWO_SERVED: Tells = Tells {
    room: 200,
    code: 0,
    notice: Notice {
        refs_len: 2,
        ..SERVED
    },
    bytes: Bytes::Any,
    refs: &[],
};

/// There is room for no more than the reason.
const GONE: Tells = Tells {
    room: 4,
    code: 0,
    notice: Notice {
        kind: 2,
        is_exception: 1,
        exception: 2,
        number: 1,
        ..SILENT
    },
    bytes: Bytes::These(b"gone"),
    refs: &[],
};

const FAILS: Steps = &[
    (Vat::A, Step::Gives(Call::Host(4), 1)),
    (Vat::A, Step::Gives(Call::Promise, 2)),
    (Vat::A, Step::Does(Call::Call(0, 2, &[1]), 102)),
    (Vat::A, Step::Gives(Call::Call(0, 2, &[1, 2]), 1)),
    (Vat::A, Step::Gives(Call::Field(1, 1), 3)),
    (Vat::A, Step::Carries),
    (Vat::B, Step::Next(TWO_SERVED)),
    (Vat::B, Step::Does(Call::Fail(0, 2, b"gone"), 0)),
    (Vat::B, Step::Carries),
    (Vat::A, Step::Next(BOOTSTRAPPED_LATER)),
    (Vat::A, Step::Next(KNOWN)),
    (Vat::A, Step::Next(GONE)),
    (Vat::A, Step::Gives(Call::Advance(3), 3)),
];

/// The same as `BOOTSTRAPPED`, with the number of its reference.
const BOOTSTRAPPED_LATER: Tells = Tells {
    refs: &[4],
    ..BOOTSTRAPPED
};

/// The call takes two references, and what is asked of its results before they are there breaks with it.
#[test]
fn a_task_fails(rt: HostRuntime) {
    play(&rt, rt.alloc(), &[MEET, FAILS, FREE]);
}

const IS_DOWN: Tells = Tells {
    room: 200,
    code: 0,
    notice: Notice { kind: 3, ..SILENT },
    bytes: Bytes::Any,
    refs: &[],
};

const GOES_DOWN: Steps = &[
    (Vat::A, Step::Does(Call::Down, 104)),
    (Vat::A, Step::Does(Call::Shut(65_536), 105)),
    (Vat::A, Step::Does(Call::Shut(3), 0)),
    (Vat::A, Step::Gives(Call::Down, 3)),
    (Vat::B, Step::Does(Call::Ended, 0)),
    (Vat::B, Step::Next(IS_DOWN)),
];

#[test]
fn a_vat_goes_down(rt: HostRuntime) {
    play(&rt, rt.alloc(), &[MEET, GOES_DOWN, FREE]);
}
