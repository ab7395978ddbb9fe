//! Out of memory at a seat: to be run with each allocation refused (`scripts/refused`).
use crate::tests::acts::Act;
use crate::tests::commands::command;
use crate::tests::cores::seat;
use crate::tests::need::{Asked, is_fall};
use crate::tests::said::{Said, message};
use crate::tests::seated::{ask, take};
use link_driver::Seat;
use rpc_machine::{Command, Refusal};
use rpc_msg::{Memory, Message, ObjectId, Vat};
use std::alloc::Global;

/// What happens at the seat: it takes a frame, or is asked.
#[derive(Clone, Copy, Drop)]
enum Step {
    Take(Said),
    Ask(Act),
}

/// It relays a call to the caller's own object, and answers by a promise that is resolved to it.
const STEPS: &[Step] = &[
    Step::Take(Said::Bootstrap(0)),
    Step::Take(Said::GiveObject(1, 5)),
    Step::Ask(Act::Host(3)),
    Step::Ask(Act::Promise),
    Step::Ask(Act::Call(0, 1)),
    Step::Ask(Act::Call(2, 2)),
    Step::Ask(Act::AnswerBy(0, 2)),
    Step::Take(Said::Null(0)),
    Step::Ask(Act::Resolve(0, 0)),
    Step::Ask(Act::Advance(2)),
    Step::Ask(Act::Finish(0)),
    Step::Take(Said::Finish(1)),
    Step::Ask(Act::LetGo(1)),
];

/// Whether it is down with 33 by its last step, of a frame or of none: all that it made by that is its last frame.
fn has_fallen(seat: &Seat, received: bool) -> bool {
    let Some(entry) = seat.log().last() else {
        return false;
    };
    seat.down() == Some(33)
        && is_fall(seat.log(), seat.side().journal(), received)
        && seat.made().len() as u64 == entry.first.wrapping_add(1)
}

/// A frame for which memory is refused is logged, and takes the vat down.
fn takes(seat: &mut Seat, seq: u64, message: Message) -> bool {
    let was_up = seat.down().is_none();
    let logged = seat.log().len();
    let down = take(seat, seq, 0, message);
    let more = seat.log().len().wrapping_sub(logged);
    let is_so = match down {
        None => was_up,
        Some(number) => number == 33 && (!was_up || has_fallen(seat, true)),
    };
    is_so && more == usize::from(was_up)
}

/// A command for which memory is refused comes back: refused by the core, and then it is done the second time; or the vat is down
/// by it.
fn obeys(seat: &mut Seat, command: Command) -> bool {
    let was_up = seat.down().is_none();
    let logged = seat.log().len();
    let asked = ask(seat, command);
    let more = seat.log().len().wrapping_sub(logged);
    match asked {
        Asked::Done => was_up && more == 1,
        Asked::DoneAgain => was_up && more == 2,
        Asked::RefusedAgain => false,
        Asked::Refused(refusal) => {
            refusal == Refusal::Down
                && (!was_up || has_fallen(seat, false))
                && more == usize::from(was_up)
        }
    }
}

/// The message; made again if one allocation was refused.
fn said(alloc: Global, said: Said) -> Result<Message, Memory> {
    match message(alloc, said) {
        Err(Memory) => message(alloc, said),
        made => made,
    }
}

/// Whether it happens as it should, after so many frames.
fn happens(alloc: Global, seat: &mut Seat, seq: u64, step: Step) -> bool {
    match step {
        Step::Take(what) => match said(alloc, what) {
            Ok(message) => takes(seat, seq, message),
            Err(Memory) => false,
        },
        Step::Ask(act) => match command(alloc, act) {
            Ok(Some(command)) => obeys(seat, command),
            _ => false,
        },
    }
}

fn happen(alloc: Global, seat: &mut Seat) -> bool {
    let mut seq = 0_u64;
    for step in STEPS {
        if !happens(alloc, seat, seq, *step) {
            return false;
        }
        if matches!(step, Step::Take(_)) {
            seq = seq.wrapping_add(1);
        }
    }
    true
}

#[test]
fn a_refused_allocation_comes_back_or_shuts_a_seat(rt: HostRuntime) -> Result<(), Memory> {
    let mut seat = seat(&rt, rt.alloc(), Vat::B, Some(ObjectId(0)))?;
    assert!(rt; happen(rt.alloc(), &mut seat));
    Ok(())
}
