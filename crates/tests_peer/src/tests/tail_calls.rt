//! A tail call, question 5 of the peer, whose results the Return of question 3 takes, and what an adapter makes of what it is not
//! asked for.
use crate::tests::frames::{
    CALL, CANCELED, FINISH, FINISH_KEEPING, IN_A_LIST, KEPT, RELEASE_BACK, RESULTS,
    RESULTS_OF_BOTH, RESULTS_OF_ONE, RESULTS_OF_THE_PEER, RESULTS_TURNED, RESULTS_WITH_NULLS,
    TAIL_CALL, TAKES,
};
use crate::tests::{Frame, envelope, is_frame, is_kept};
use peer_tail_calls::{Adapter, AdapterError, AdapterFault, Heard, Inbound, Outbound, Said};
use rpc_codec::Envelope;
use rpc_msg::{Memory, Message};
use std::alloc::Global;
use std::test::Fail;

#[derive(Clone, Copy, Drop)]
enum Act {
    /// The peer sends that.
    Comes(Frame),
    /// The vat says that.
    Goes(Frame),
}

#[derive(Clone, Copy, Drop)]
enum Outcome {
    /// What is said to the peer, and what the vat hears after one another.
    Says(&'static [Frame], &'static [Frame]),
    Fault(u16),
}

/// What happens, and what comes of it.
type Step = (Act, Outcome);

const ASKS: Step = (
    Act::Comes(Frame(TAIL_CALL, 5)),
    Outcome::Says(&[], &[Frame(CALL, 5)]),
);

const WAITS: Step = (Act::Comes(Frame(TAKES, 5)), Outcome::Says(&[], &[]));

const KEEPS: Step = (
    Act::Goes(Frame(RESULTS, 5)),
    Outcome::Says(&[Frame(KEPT, 5)], &[]),
);

const GIVES: Step = (
    Act::Goes(Frame(RESULTS, 5)),
    Outcome::Says(&[Frame(KEPT, 5)], &[Frame(RESULTS, 3)]),
);

const FINISHES: Step = (
    Act::Comes(Frame(FINISH_KEEPING, 5)),
    Outcome::Says(&[], &[Frame(FINISH, 5)]),
);

const NOTHING_TO_TAKE: Step = (Act::Comes(Frame(TAKES, 5)), Outcome::Fault(66));

/// Results that are taken: before they are there, after it, and after the Finish of the tail call. Results that are not taken. Calls
/// that are canceled. No tail call; results that can't be taken any more; none that are kept. A Release that is not understood. A
/// capability that is named by its path, that goes as null if it is not there, and that can't be named in a list.
const SCENES: [&[Step]; 15] = [
    &[ASKS, WAITS, GIVES, FINISHES],
    &[
        ASKS,
        KEEPS,
        (
            Act::Comes(Frame(TAKES, 5)),
            Outcome::Says(&[], &[Frame(RESULTS, 3)]),
        ),
        FINISHES,
    ],
    &[
        ASKS,
        WAITS,
        (
            Act::Comes(Frame(FINISH_KEEPING, 5)),
            Outcome::Says(&[], &[]),
        ),
        (
            Act::Goes(Frame(RESULTS, 5)),
            Outcome::Says(&[Frame(KEPT, 5)], &[Frame(RESULTS, 3), Frame(FINISH, 5)]),
        ),
    ],
    &[ASKS, KEEPS, FINISHES],
    &[
        ASKS,
        FINISHES,
        (
            Act::Goes(Frame(CANCELED, 5)),
            Outcome::Says(&[Frame(CANCELED, 5)], &[]),
        ),
    ],
    &[
        (
            Act::Comes(Frame(FINISH_KEEPING, 5)),
            Outcome::Says(&[], &[Frame(FINISH_KEEPING, 5)]),
        ),
        (
            Act::Goes(Frame(RESULTS, 5)),
            Outcome::Says(&[Frame(RESULTS, 5)], &[]),
        ),
    ],
    &[NOTHING_TO_TAKE],
    &[ASKS, WAITS, NOTHING_TO_TAKE],
    &[ASKS, FINISHES, NOTHING_TO_TAKE],
    &[ASKS, KEEPS, FINISHES, NOTHING_TO_TAKE],
    &[(Act::Comes(Frame(KEPT, 3)), Outcome::Fault(67))],
    &[(Act::Goes(Frame(RELEASE_BACK, 0)), Outcome::Says(&[], &[]))],
    &[
        ASKS,
        WAITS,
        (
            Act::Goes(Frame(RESULTS_OF_BOTH, 5)),
            Outcome::Says(&[Frame(KEPT, 5)], &[Frame(RESULTS_TURNED, 3)]),
        ),
    ],
    &[(
        Act::Goes(Frame(RESULTS_OF_ONE, 5)),
        Outcome::Says(&[Frame(RESULTS_WITH_NULLS, 5)], &[]),
    )],
    &[
        ASKS,
        WAITS,
        (
            Act::Goes(Frame(RESULTS_OF_THE_PEER, 5)),
            Outcome::Says(&[Frame(KEPT, 5)], &[Frame(IN_A_LIST, 3)]),
        ),
    ],
];

pub fn are_heard(alloc: Global, heard: &Heard, wanted: &[Frame]) -> Result<bool, Fail> {
    match (heard, wanted) {
        (Heard::Nothing, []) => Ok(true),
        (Heard::One(message), [frame]) => is_frame(alloc, message, *frame),
        (Heard::Two(first, second), [one, other]) => {
            Ok(is_frame(alloc, first, *one)? && is_frame(alloc, second, *other)?)
        }
        _ => Ok(false),
    }
}

pub fn is_said(alloc: Global, said: &Option<Said>, wanted: &[Frame]) -> Result<bool, Fail> {
    match (said, wanted) {
        (None, []) => Ok(true),
        (Some(Said::Message(message)), [frame]) => is_frame(alloc, message, *frame),
        (Some(Said::SentElsewhere(kept)), [frame]) => is_kept(alloc, *kept, *frame),
        _ => Ok(false),
    }
}

// The peer is told nothing of what comes here.
fn came(alloc: Global, inbound: &Inbound, wanted: Outcome) -> Result<bool, Fail> {
    match wanted {
        Outcome::Says(said, heard) => {
            Ok(said.is_empty() && are_heard(alloc, &inbound.heard, heard)?)
        }
        Outcome::Fault(_) => Ok(false),
    }
}

fn is_fault(fault: AdapterFault, wanted: Outcome) -> bool {
    matches!(wanted, Outcome::Fault(number) if number == fault.code())
}

fn comes(
    alloc: Global,
    adapter: &mut Adapter,
    frame: Frame,
    wanted: Outcome,
) -> Result<bool, Fail> {
    let envelope = envelope(alloc, frame)?;
    match adapter.inbound(envelope) {
        Ok(inbound) => came(alloc, &inbound, wanted),
        Err(AdapterError::Fault(fault)) => Ok(is_fault(fault, wanted)),
        Err(AdapterError::Memory) => Err(Memory)?,
    }
}

fn message_of(envelope: Envelope) -> Option<Message> {
    match envelope {
        Envelope::Message(message) => Some(message),
        _ => None,
    }
}

pub fn message(alloc: Global, frame: Frame) -> Result<Message, Fail> {
    let envelope = envelope(alloc, frame)?;
    match message_of(envelope) {
        Some(message) => Ok(message),
        None => Err("no message")?,
    }
}

fn goes(alloc: Global, adapter: &mut Adapter, frame: Frame, wanted: Outcome) -> Result<bool, Fail> {
    let message = message(alloc, frame)?;
    let outbound = adapter.outbound(message)?;
    went(alloc, &outbound, wanted)
}

fn went(alloc: Global, outbound: &Outbound, wanted: Outcome) -> Result<bool, Fail> {
    match wanted {
        Outcome::Says(said, heard) => {
            Ok(is_said(alloc, &outbound.said, said)? && are_heard(alloc, &outbound.heard, heard)?)
        }
        Outcome::Fault(_) => Ok(false),
    }
}

/// Whether each step of a scene comes to what is wanted.
fn is_played(alloc: Global, scene: &[Step]) -> Result<bool, Fail> {
    let mut adapter = Adapter::new(alloc);
    let mut is_wanted = true;
    for (act, wanted) in scene {
        is_wanted &= match act {
            Act::Comes(frame) => comes(alloc, &mut adapter, *frame, *wanted)?,
            Act::Goes(frame) => goes(alloc, &mut adapter, *frame, *wanted)?,
        };
    }
    Ok(is_wanted)
}

#[test]
fn tail_calls_in_every_order(rt: HostRuntime) -> Result<(), Fail> {
    for (number, scene) in SCENES.iter().enumerate() {
        let is_played = is_played(rt.alloc(), scene)?;
        assert!(rt; is_played, "scene {number}");
    }
    Ok(())
}
