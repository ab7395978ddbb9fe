//! Messages that break a limit: each costs its call, and the connection goes on.
use crate::tests::asks::Ask;
use crate::tests::scene::{DONE, Step, scene};
use crate::tests::told::{Came, Given, Told};
use rpc_machine::Granted;
use rpc_msg::{CallId, Vat};

/// A frame that breaks a limit: its table, what stands behind what all of a kind begin with, and so many times what comes then.
struct Breach {
    /// The segments less one, and the words of the only one.
    table: [u8; 8],
    front: &'static [u8],
    more: &'static [u8],
    times: usize,
    /// What a caller is told.
    reason: &'static str,
}

const ZEROS: [u8; 4096] = [0; 4096];

/// A struct of one pointer, which leads to the next word.
const NEST: [u8; 8] = [0, 0, 0, 0, 0, 0, 1, 0];

/// `senderHosted` of export 5.
const DESCRIPTOR: [u8; 16] = [1, 0, 0, 0, 5, 0, 0, 0, 0, 0, 0, 0, 0, 0, 0, 0];

/// `getPointerField` 0.
const FIELD: [u8; 8] = [1, 0, 0, 0, 0, 0, 0, 0];

const LARGE: &str = "the message has more than 65536 words";

const DEEP: &str = "the message nests more than 64 levels deep";

const MANY: &str = "the message has more than 4096 capabilities";

const LONG: &str = "the target has a path of more than 16 steps";

/// What a Call of question 7 begins with (`rpc.capnp`): the root's pointer, a word and a pointer of the message, three words of the
/// Call.
const CALL: [u8; 48] = [
    0, 0, 0, 0, 1, 0, 1, 0, 2, 0, 0, 0, 0, 0, 0, 0, 0, 0, 0, 0, 3, 0, 3, 0, 7, 0, 0, 0, 0, 0, 0, 0,
    0, 0, 0, 0, 0, 0, 0, 0, 0, 0, 0, 0, 0, 0, 0, 0,
];

/// Its three pointers: all null; to params with a content that begins with one pointer; to params with a table of 4,200 descriptors,
/// whose tag is the last word; to the results of question 0 by a path of 17 steps, whose tag is the last word.
const NULL_PARAMS: [u8; 24] = [0; 24];

const DEEP_PARAMS: [u8; 40] = [
    0, 0, 0, 0, 0, 0, 0, 0, 4, 0, 0, 0, 0, 0, 2, 0, 0, 0, 0, 0, 0, 0, 0, 0, 4, 0, 0, 0, 0, 0, 1, 0,
    0, 0, 0, 0, 0, 0, 0, 0,
];

const MANY_PARAMS: [u8; 48] = [
    0, 0, 0, 0, 0, 0, 0, 0, 4, 0, 0, 0, 0, 0, 2, 0, 0, 0, 0, 0, 0, 0, 0, 0, 0, 0, 0, 0, 0, 0, 0, 0,
    1, 0, 0, 0, 135, 6, 1, 0, 160, 65, 0, 0, 1, 0, 1, 0,
];

const LONG_TARGET: [u8; 64] = [
    8, 0, 0, 0, 1, 0, 1, 0, 0, 0, 0, 0, 0, 0, 0, 0, 0, 0, 0, 0, 0, 0, 0, 0, 0, 0, 0, 0, 1, 0, 0, 0,
    0, 0, 0, 0, 1, 0, 1, 0, 0, 0, 0, 0, 0, 0, 0, 0, 1, 0, 0, 0, 143, 0, 0, 0, 68, 0, 0, 0, 1, 0, 0,
    0,
];

/// Calls of 532,552 and 59,998,280 bytes, 71 levels in a content, 4,200 descriptors, 17 steps.
const CALLS: [Breach; 5] = [
    Breach {
        table: [0, 0, 0, 0, 9, 4, 1, 0],
        front: &NULL_PARAMS,
        more: &ZEROS,
        times: 130,
        reason: LARGE,
    },
    Breach {
        table: [0, 0, 0, 0, 9, 112, 114, 0],
        front: &NULL_PARAMS,
        more: &ZEROS,
        times: 14648,
        reason: LARGE,
    },
    Breach {
        table: [0, 0, 0, 0, 82, 0, 0, 0],
        front: &DEEP_PARAMS,
        more: &NEST,
        times: 71,
        reason: DEEP,
    },
    Breach {
        table: [0, 0, 0, 0, 220, 32, 0, 0],
        front: &MANY_PARAMS,
        more: &DESCRIPTOR,
        times: 4200,
        reason: MANY,
    },
    Breach {
        table: [0, 0, 0, 0, 31, 0, 0, 0],
        front: &LONG_TARGET,
        more: &FIELD,
        times: 17,
        reason: LONG,
    },
];

/// The Finish of question 7, with a true flag.
const CALL_FINISHED: [u8; 40] = [
    0, 0, 0, 0, 4, 0, 0, 0, 0, 0, 0, 0, 1, 0, 1, 0, 4, 0, 0, 0, 0, 0, 0, 0, 0, 0, 0, 0, 1, 0, 0, 0,
    7, 0, 0, 0, 0, 0, 0, 0,
];

/// The caller is told which limit its call breaks; its Finish ends that, and the vat has heard of nothing.
#[test]
fn a_call_that_breaks_a_limit_fails(rt: HostRuntime) {
    for breach in &CALLS {
        let steps = [
            (Vat::A, Step::Hears(&breach.table)),
            (Vat::A, Step::Hears(&CALL)),
            (Vat::A, Step::Hears(breach.front)),
            (Vat::A, Step::HearsOften(breach.more, breach.times)),
            (Vat::A, Step::Fails(breach.reason)),
            (Vat::A, Step::Hears(&CALL_FINISHED)),
            (Vat::A, Step::Tells(Told::Nothing)),
            (Vat::A, Step::HasOutgoing(false)),
            (Vat::A, Step::Loads(0)),
            (Vat::A, Step::IsUp),
            (Vat::A, Step::SharesNothing),
        ];
        scene(&rt, rt.alloc(), [None, None], 0, &[&steps]);
    }
}

/// What a Return of question 0 with results begins with: the root's pointer, a word and a pointer of the message, two words of the
/// Return.
const RETURN: [u8; 40] = [
    0, 0, 0, 0, 1, 0, 1, 0, 3, 0, 0, 0, 0, 0, 0, 0, 0, 0, 0, 0, 2, 0, 1, 0, 0, 0, 0, 0, 0, 0, 0, 0,
    0, 0, 0, 0, 0, 0, 0, 0,
];

/// Its pointer, as of a Call.
const NULL_RESULTS: [u8; 8] = [0; 8];

const DEEP_RESULTS: [u8; 24] = [
    0, 0, 0, 0, 0, 0, 2, 0, 4, 0, 0, 0, 0, 0, 1, 0, 0, 0, 0, 0, 0, 0, 0, 0,
];

const MANY_RESULTS: [u8; 32] = [
    0, 0, 0, 0, 0, 0, 2, 0, 0, 0, 0, 0, 0, 0, 0, 0, 1, 0, 0, 0, 135, 6, 1, 0, 160, 65, 0, 0, 1, 0,
    1, 0,
];

/// Returns of 532,528 and 59,998,256 bytes, 71 levels in a content, 4,200 descriptors.
const RETURNS: [Breach; 4] = [
    Breach {
        table: [0, 0, 0, 0, 6, 4, 1, 0],
        front: &NULL_RESULTS,
        more: &ZEROS,
        times: 130,
        reason: LARGE,
    },
    Breach {
        table: [0, 0, 0, 0, 6, 112, 114, 0],
        front: &NULL_RESULTS,
        more: &ZEROS,
        times: 14648,
        reason: LARGE,
    },
    Breach {
        table: [0, 0, 0, 0, 79, 0, 0, 0],
        front: &DEEP_RESULTS,
        more: &NEST,
        times: 71,
        reason: DEEP,
    },
    Breach {
        table: [0, 0, 0, 0, 217, 32, 0, 0],
        front: &MANY_RESULTS,
        more: &DESCRIPTOR,
        times: 4200,
        reason: MANY,
    },
];

/// The Finish of question 0, with a true flag.
const FINISHED: [u8; 40] = [
    0, 0, 0, 0, 4, 0, 0, 0, 0, 0, 0, 0, 1, 0, 1, 0, 4, 0, 0, 0, 0, 0, 0, 0, 0, 0, 0, 0, 1, 0, 0, 0,
    0, 0, 0, 0, 0, 0, 0, 0,
];

/// The call ends with an exception, and its Finish gives back all that came.
#[test]
fn a_return_that_breaks_a_limit_ends_its_call(rt: HostRuntime) {
    for breach in &RETURNS {
        let steps = [
            (
                Vat::A,
                Step::Asks(Ask::Bootstrap, Ok(Granted::Call(CallId(0)))),
            ),
            (Vat::A, Step::Carries),
            (Vat::A, Step::Hears(&breach.table)),
            (Vat::A, Step::Hears(&RETURN)),
            (Vat::A, Step::Hears(breach.front)),
            (Vat::A, Step::HearsOften(breach.more, breach.times)),
            (
                Vat::A,
                Step::Tells(Told::Ended(CallId(0), Came::Exception, Given::Nothing)),
            ),
            (Vat::A, Step::Tells(Told::Nothing)),
            (Vat::A, Step::Asks(Ask::Finish(CallId(0)), DONE)),
            (Vat::A, Step::Says(&FINISHED)),
            (Vat::A, Step::Loads(0)),
            (Vat::A, Step::IsUp),
            (Vat::A, Step::SharesNothing),
        ];
        scene(&rt, rt.alloc(), [None, None], 0, &[&steps]);
    }
}
