//! A side alone, whose frames are handed to it.
use crate::adder::{Adder, Did, Note};
use crate::tests::adder;
use link_rings::{Entry, Frame, Seat, Turn};
use std::alloc::{AllocError, Global};

type AdderSeat = Seat<Adder, Note, u64>;

/// What is done at the seat: it is told to say a number, which it does or not; it takes a frame of these numbers, with this
/// message, and is up or down behind it.
#[derive(Clone, Copy)]
enum Act {
    Say(u64, bool),
    Take(u64, u64, u64, Option<u16>),
}

/// What is done, the number with which the seat was shut then, and the sum. Of each frame that was made its number, acknowledgement
/// and message. Of each entry the number and the acknowledgement of what it took, how many frames were made before it, and how many
/// had come after it.
struct Case {
    acts: &'static [Act],
    shut: Option<u16>,
    total: u64,
    made: &'static [(u64, u64, u64)],
    logged: &'static [(u64, u64, u64, u64)],
}

const NUMBERED: Case = Case {
    acts: &[
        Act::Say(5, true),
        Act::Take(0, 1, 7, None),
        Act::Say(8, true),
        Act::Take(1, 3, 9, None),
    ],
    shut: None,
    total: 16,
    made: &[(0, 0, 5), (1, 1, 7), (2, 1, 8), (3, 2, 9)],
    logged: &[(0, 0, 0, 0), (0, 1, 1, 1), (0, 0, 2, 1), (1, 3, 3, 2)],
};

/// Of a seat that was shut by its first frame: it said so, and wrote it down.
const SHUT_MADE: &[(u64, u64, u64)] = &[(0, 0, 0)];

const SHUT_LOGGED: &[(u64, u64, u64, u64)] = &[(0, 0, 0, 0)];

/// A first frame with a wrong number, or a wrong acknowledgement, or both. What is done then changes nothing.
const WRONG: &[Case] = &[
    Case {
        acts: &[
            Act::Take(1, 0, 7, Some(41)),
            Act::Say(3, false),
            Act::Take(0, 0, 7, Some(41)),
        ],
        shut: Some(41),
        total: 0,
        made: SHUT_MADE,
        logged: SHUT_LOGGED,
    },
    Case {
        acts: &[
            Act::Take(0, 1, 7, Some(42)),
            Act::Say(3, false),
            Act::Take(0, 0, 7, Some(42)),
        ],
        shut: Some(42),
        total: 0,
        made: SHUT_MADE,
        logged: SHUT_LOGGED,
    },
    Case {
        acts: &[
            Act::Take(1, 1, 7, Some(41)),
            Act::Say(3, false),
            Act::Take(0, 0, 7, Some(41)),
        ],
        shut: Some(41),
        total: 0,
        made: SHUT_MADE,
        logged: SHUT_LOGGED,
    },
];

fn happens(seat: &mut AdderSeat, act: Act) -> bool {
    match act {
        Act::Say(number, done) => seat.command(number) == done,
        Act::Take(seq, ack, message, down) => match seat.take(Frame { seq, ack, message }) {
            Turn::Handled(_) => down.is_none(),
            Turn::Down(number) => down == Some(number),
            Turn::Idle => false,
        },
    }
}

fn has_made(frames: &[Frame<u64>], wanted: &[(u64, u64, u64)]) -> bool {
    if frames.len() != wanted.len() {
        return false;
    }
    for (frame, wanted) in frames.iter().zip(wanted) {
        if (frame.seq, frame.ack, frame.message) != *wanted {
            return false;
        }
    }
    true
}

fn has_logged(log: &[Entry<Note>], wanted: &[(u64, u64, u64, u64)]) -> bool {
    if log.len() != wanted.len() {
        return false;
    }
    for (entry, wanted) in log.iter().zip(wanted) {
        if (entry.seq, entry.ack, entry.first, entry.heard) != *wanted {
            return false;
        }
    }
    true
}

/// The number of the shut that the last entry is of, if it is of one.
fn shut_by(log: &[Entry<Note>]) -> Option<u16> {
    match log.last()?.note.did {
        Did::Shut(number) => Some(number),
        _ => None,
    }
}

fn plays(seat: &mut AdderSeat, case: &Case) -> bool {
    for act in case.acts {
        if !happens(seat, *act) {
            return false;
        }
    }
    seat.recycle(9);
    seat.side().total == case.total
        && shut_by(seat.log()) == case.shut
        && has_made(seat.made(), case.made)
        && has_logged(seat.log(), case.logged)
}

fn is_so(alloc: Global, case: &Case) -> Result<bool, AllocError> {
    match Seat::new(alloc, adder()) {
        Ok(mut seat) => Ok(plays(&mut seat, case)),
        Err(_) => Err(AllocError),
    }
}

#[test]
fn frames_are_numbered_as_they_are_made(rt: HostRuntime) -> Result<(), AllocError> {
    assert!(rt; is_so(rt.alloc(), &NUMBERED)?);
    Ok(())
}

#[test]
fn wrong_frames_shut(rt: HostRuntime) -> Result<(), AllocError> {
    for case in WRONG {
        assert!(rt; is_so(rt.alloc(), case)?);
    }
    Ok(())
}
