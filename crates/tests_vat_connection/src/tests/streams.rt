//! What comes is not understood, is no frame, or ends.
use crate::tests::asks::Ask;
use crate::tests::scene::{Step, Steps, scene};
use crate::tests::told::{Came, Given, Told};
use rpc_machine::{Granted, Refusal};
use rpc_msg::{CallId, Vat};

/// One segment of three words: a struct of one word and one pointer, number 9 in the union, and null.
const STRANGE: [u8; 32] = [
    0, 0, 0, 0, 3, 0, 0, 0, 0, 0, 0, 0, 1, 0, 1, 0, 9, 0, 0, 0, 0, 0, 0, 0, 0, 0, 0, 0, 0, 0, 0, 0,
];

/// Unimplemented, number 0 in the union, with that struct behind its pointer.
const SENT_BACK: [u8; 48] = [
    0, 0, 0, 0, 5, 0, 0, 0, 0, 0, 0, 0, 1, 0, 1, 0, 0, 0, 0, 0, 0, 0, 0, 0, 0, 0, 0, 0, 1, 0, 1, 0,
    9, 0, 0, 0, 0, 0, 0, 0, 0, 0, 0, 0, 0, 0, 0, 0,
];

const NOT_UNDERSTOOD: Steps<'static> = &[
    (Vat::A, Step::Hears(&STRANGE)),
    (Vat::A, Step::HasOutgoing(true)),
    (Vat::A, Step::Says(&SENT_BACK)),
    (Vat::A, Step::HasOutgoing(false)),
    (Vat::A, Step::IsUp),
];

#[test]
fn what_is_not_understood_goes_back_whole(rt: HostRuntime) {
    scene(&rt, rt.alloc(), [None, None], 0, &[NOT_UNDERSTOOD]);
}

/// One segment of one word, a null root: an Unimplemented of nothing.
const EMPTY: [u8; 16] = [0, 0, 0, 0, 1, 0, 0, 0, 0, 0, 0, 0, 0, 0, 0, 0];

/// What a stream begins with that takes a vat down, and the fault's number: 17 segments, one of 8,388,609 words, an Unimplemented of
/// nothing, and what is none of a frame that came before.
const AT_FAULT: [(&[u8], u16); 4] = [
    (&[16, 0, 0, 0], 3),
    (&[0, 0, 0, 0, 1, 0, 128, 0], 4),
    (&EMPTY, 63),
    (&[255, 255, 255, 255, 1], 3),
];

/// What is no frame, and what comes behind it: the vat is down, and so is its peer then.
#[test]
fn what_is_no_frame_takes_a_vat_down(rt: HostRuntime) {
    for (bytes, number) in AT_FAULT {
        let steps = [
            (Vat::A, Step::Hears(bytes)),
            (Vat::A, Step::Hears(&STRANGE)),
            (Vat::A, Step::Tells(Told::Down(number))),
            (Vat::A, Step::Tells(Told::Nothing)),
            (Vat::A, Step::Carries),
            (Vat::B, Step::Tells(Told::Aborted(number))),
            (Vat::B, Step::HasOutgoing(false)),
        ];
        scene(&rt, rt.alloc(), [None, None], 5, &[&steps]);
    }
}

/// So many bytes of that frame come before a stream ends, and with which number the vat goes down.
const CUT: [(usize, u16); 4] = [(0, 0), (1, 2), (31, 2), (32, 0)];

/// The stream of a vat with an open call ends, and once more.
#[test]
fn the_stream_ends(rt: HostRuntime) {
    for (bytes, number) in CUT {
        let steps = [
            (
                Vat::A,
                Step::Asks(Ask::Bootstrap, Ok(Granted::Call(CallId(0)))),
            ),
            (Vat::A, Step::Hears(&STRANGE[..bytes])),
            (Vat::A, Step::Ends),
            (
                Vat::A,
                Step::Tells(Told::Ended(CallId(0), Came::CutOff, Given::Nothing)),
            ),
            (Vat::A, Step::Tells(Told::Down(number))),
            (Vat::A, Step::Ends),
            (Vat::A, Step::Tells(Told::Nothing)),
            (Vat::A, Step::HasOutgoing(true)),
            (Vat::A, Step::Asks(Ask::Bootstrap, Err(Refusal::Down))),
        ];
        scene(&rt, rt.alloc(), [None, None], 0, &[&steps]);
    }
}
