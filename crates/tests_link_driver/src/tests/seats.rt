//! Frames that are handed to a seat: those that say what is a fault, and those with wrong numbers.
use crate::tests::commands::call;
use crate::tests::cores::seat;
use crate::tests::need::Asked;
use crate::tests::said::{Said, message};
use crate::tests::seated::{ask, take};
use link_driver::{JournalEntry, Seat};
use rpc_machine::{Command, Refusal};
use rpc_msg::{
    DisembargoContext, EmbargoId, Items, Memory, Message, ObjectId, Payload, PlainMessage,
    QuestionId, Vat,
};
use std::alloc::Global;
use std::process::Abort;

/// Frames of a peer, of which the last takes the vat down, with that number: all before it are taken.
type Row = (&'static [Said], u16);

const ROWS: &[Row] = &[
    (&[Said::Bootstrap(0), Said::Bootstrap(0)], 20),
    (&[Said::Canceled(0)], 21),
    (&[Said::Call(0)], 22),
    (&[Said::Finish(0)], 23),
    (&[Said::Bootstrap(0), Said::Release(0, 0)], 24),
    (
        &[
            Said::Bootstrap(0),
            Said::GivePromise(1, 5),
            Said::Broken(5),
            Said::Broken(5),
        ],
        25,
    ),
    (
        &[Said::Bootstrap(0), Said::GiveObject(1, 5), Said::Broken(5)],
        26,
    ),
    (
        &[
            Said::Bootstrap(0),
            Said::Disembargo(DisembargoContext::SenderLoopback(EmbargoId(0))),
        ],
        27,
    ),
    (
        &[Said::Disembargo(DisembargoContext::ReceiverLoopback(EmbargoId(0)))],
        28,
    ),
    (
        &[
            Said::Bootstrap(0),
            Said::GiveObject(1, 5),
            Said::GivePromise(2, 5),
        ],
        29,
    ),
    (&[Said::Bootstrap(0), Said::GiveNone(1)], 30),
    (&[Said::Unimplemented], 32),
    (&[Said::Abort], 34),
];

fn seat_of_b(rt: &impl Abort, alloc: Global) -> Result<Seat, Memory> {
    seat(rt, alloc, Vat::B, Some(ObjectId(0)))
}

fn bootstrap(question: u32) -> Message {
    Message::Plain(PlainMessage::Bootstrap(QuestionId(question)))
}

/// The number that the Abort of its last step has, which said nothing else.
fn says(seat: &Seat) -> Option<u16> {
    let (entry, frame) = (seat.log().last()?, seat.made().last()?);
    match &frame.message {
        Message::Plain(PlainMessage::Abort(said)) if entry.note.sent == 1 => {
            let number = said.reason.as_str().strip_prefix("fault ")?;
            number.parse().ok()
        }
        _ => None,
    }
}

/// A seat that is down by that number said so by one Abort, if it was not an Abort; it takes and obeys no more.
fn is_over(seat: &mut Seat, number: u16, seq: u64) -> bool {
    let said = says(seat);
    let made = seat.made().len();
    let logged = seat.log().len();
    let is_down = seat.down() == Some(number)
        && take(seat, seq, 0, bootstrap(9)) == Some(number)
        && ask(seat, Command::Promise) == Asked::Refused(Refusal::Down);
    is_down
        && said == (if number == 34 { None } else { Some(number) })
        && seat.made().len() == made
        && seat.log().len() == logged
}

/// Hands it the message as a frame: gives the number with which it is down, if it is.
fn hear(alloc: Global, seat: &mut Seat, seq: u64, ack: u64, said: Said) -> Option<u16> {
    match message(alloc, said) {
        Ok(message) => take(seat, seq, ack, message),
        Err(Memory) => None,
    }
}

/// Hands it the frames, the first of that number and acknowledgement: whether the last, and none before it, takes it down by that
/// number.
fn falls(
    alloc: Global,
    seat: &mut Seat,
    (seq, ack): (u64, u64),
    row: &[Said],
    number: u16,
) -> bool {
    let mut seq = seq;
    let mut down = None;
    for said in row {
        if down.is_some() {
            return false;
        }
        down = hear(alloc, seat, seq, ack, *said);
        seq = seq.wrapping_add(1);
    }
    down == Some(number) && is_over(seat, number, seq)
}

#[test]
fn the_last_frame_of_a_row_is_the_fault(rt: HostRuntime) -> Result<(), Memory> {
    for (row, number) in ROWS {
        let mut seat = seat_of_b(&rt, rt.alloc())?;
        assert!(rt;
            falls(rt.alloc(), &mut seat, (0, 0), row, *number),
            "{number}"
        );
    }
    Ok(())
}

/// How many answers may be open.
const ANSWERS: u32 = 4_096;

/// Whether it takes so many Bootstraps, and is down by the next.
fn takes_no_more(seat: &mut Seat) -> bool {
    for question in 0..ANSWERS {
        if take(seat, u64::from(question), 0, bootstrap(question)).is_some() {
            return false;
        }
    }
    take(seat, u64::from(ANSWERS), 0, bootstrap(ANSWERS)) == Some(33)
        && is_over(seat, 33, 4_097)
        && seat.side().met_limit()
}

#[test]
fn a_frame_past_a_limit_is_the_fault(rt: HostRuntime) -> Result<(), Memory> {
    let mut seat = seat_of_b(&rt, rt.alloc())?;
    assert!(rt; takes_no_more(&mut seat));
    Ok(())
}

/// How many calls may wait at a vat.
const WAITING: u32 = 65_536;

/// What becomes of a call through the reference to its one promise, if it waits.
fn wait(alloc: Global, seat: &mut Seat, null: &Payload) -> Option<Asked> {
    match null.copy(alloc) {
        Ok(payload) => {
            let call = call(0, 1, (payload, Items::new(alloc)));
            Some(ask(seat, Command::Call(call)))
        }
        Err(Memory) => None,
    }
}

/// Whether it makes a promise, and as many calls that wait for it as may; and one more is refused.
fn fills(alloc: Global, seat: &mut Seat, null: &Payload) -> bool {
    let mut is_done = ask(seat, Command::Promise) == Asked::Done;
    for _ in 0..WAITING {
        is_done = is_done && wait(alloc, seat, null) == Some(Asked::Done);
    }
    is_done && wait(alloc, seat, null) == Some(Asked::Refused(Refusal::Full))
}

/// A Bootstrap, a Call that is delivered, and one on its results, which would wait.
const ONE_TOO_MANY: &[Said] = &[Said::Bootstrap(0), Said::CallBoot(1), Said::CallOf(2, 1)];

#[test]
fn a_call_past_those_that_may_wait_is_the_fault(rt: HostRuntime) -> Result<(), Memory> {
    let null = Payload::null(rt.alloc())?;
    let mut seat = seat_of_b(&rt, rt.alloc())?;
    assert!(rt; fills(rt.alloc(), &mut seat, &null));
    assert!(rt; falls(rt.alloc(), &mut seat, (0, 0), ONE_TOO_MANY, 31));
    Ok(())
}

/// A first frame, by its number and what it acknowledges, and the number of the shut.
const WRONG: [((u64, u64), u16); 3] = [((1, 0), 41), ((0, 1), 42), ((1, 1), 41)];

fn delivers(journal: &[JournalEntry]) -> bool {
    for entry in journal {
        if matches!(entry, JournalEntry::Delivered(_, _)) {
            return true;
        }
    }
    false
}

#[test]
fn wrong_frames_shut_a_seat(rt: HostRuntime) -> Result<(), Memory> {
    for (numbers, number) in WRONG {
        let mut seat = seat_of_b(&rt, rt.alloc())?;
        assert!(rt; falls(rt.alloc(), &mut seat, numbers, &[Said::CallBoot(0)], number));
        assert!(rt; !delivers(seat.side().journal()));
    }
    Ok(())
}
