//! Questions of the peer, of which 5 is refused in most scenes.
use crate::tests::frames::{
    BOOTSTRAP, CALL, CALL_OF_CLEARED, CALL_OF_REFUSED, DISEMBARGO, FINISH, KEPT, OVERLOADED,
    OVERLOADED_KEEPING, PIPELINED, RELEASE, RESOLVE_TO_NONE, RESOLVE_TO_REFUSED,
    RESULTS_OF_CLEARED, RESULTS_OF_REFUSED, TAIL_CALL, TAIL_CALL_OF_REFUSED, TAIL_PIPELINED,
    TAKES_KEEPING,
};
use crate::tests::{Frame, Heard, envelope, is_heard, is_message};
use Heard::{TailCall, Taken};
use Outcome::{Fault, Nothing, Refused, RefusedTail};
use peer_overload::{Admission, Overload, OverloadError, overloaded};
use rpc_codec::{Envelope, TakenFromOther};
use rpc_msg::{Memory, Message, PlainMessage, QuestionId};
use std::alloc::Global;
use std::test::Fail;

/// What comes of a frame.
#[derive(Clone, Copy, Drop)]
enum Outcome {
    Heard(Heard),
    Refused(u32),
    RefusedTail(u32),
    Nothing,
    Fault(u16),
}

/// A frame that comes, whether the vat has as many answers as it may have, and what comes of it.
type Step = (Frame, bool, Outcome);

const CALL_REFUSED: Step = (Frame(CALL, 5), true, Refused(5));

const TAIL_REFUSED: Step = (Frame(TAIL_CALL, 5), true, RefusedTail(5));

const FINISHED: Step = (Frame(FINISH, 5), false, Nothing);

const TAKEN: Step = (
    Frame(TAKES_KEEPING, 5),
    false,
    Outcome::Heard(Heard::Frame(Frame(OVERLOADED_KEEPING, 3))),
);

/// There is nothing to take. The part of the adapter that knows of tail calls hears it.
const NOT_TAKEN: Step = (
    Frame(TAKES_KEEPING, 5),
    false,
    Outcome::Heard(Taken(TakenFromOther {
        answer: QuestionId(3),
        release_param_caps: false,
        question: QuestionId(5),
    })),
);

const SCENES: [&[Step]; 22] = [
    // Each kind of question, without room and with room.
    &[(Frame(BOOTSTRAP, 5), true, Refused(5))],
    &[CALL_REFUSED],
    &[TAIL_REFUSED],
    &[
        (
            Frame(BOOTSTRAP, 1),
            false,
            Outcome::Heard(Heard::Frame(Frame(BOOTSTRAP, 1))),
        ),
        (
            Frame(CALL, 2),
            false,
            Outcome::Heard(Heard::Frame(Frame(CALL, 2))),
        ),
        (
            Frame(TAIL_CALL, 3),
            false,
            Outcome::Heard(TailCall(Frame(CALL, 3))),
        ),
    ],
    &[
        CALL_REFUSED,
        (
            Frame(BOOTSTRAP, 1),
            false,
            Outcome::Heard(Heard::Frame(Frame(BOOTSTRAP, 1))),
        ),
        (
            Frame(CALL, 2),
            false,
            Outcome::Heard(Heard::Frame(Frame(CALL, 2))),
        ),
    ],
    // Calls of the results of a refused question.
    &[
        CALL_REFUSED,
        (Frame(PIPELINED, 6), false, Refused(6)),
        (Frame(TAIL_PIPELINED, 7), false, RefusedTail(7)),
        (Frame(FINISH, 6), false, Nothing),
    ],
    &[
        TAIL_REFUSED,
        (Frame(PIPELINED, 6), false, Refused(6)),
        FINISHED,
        (
            Frame(PIPELINED, 7),
            false,
            Outcome::Heard(Heard::Frame(Frame(PIPELINED, 7))),
        ),
    ],
    // A refused question to its Finish, and its id used again.
    &[
        CALL_REFUSED,
        FINISHED,
        (
            Frame(FINISH, 5),
            false,
            Outcome::Heard(Heard::Frame(Frame(FINISH, 5))),
        ),
        (
            Frame(CALL, 5),
            false,
            Outcome::Heard(Heard::Frame(Frame(CALL, 5))),
        ),
    ],
    &[CALL_REFUSED, (Frame(CALL, 5), false, Fault(20))],
    &[CALL_REFUSED, (Frame(CALL, 5), true, Fault(20))],
    &[CALL_REFUSED, (Frame(TAIL_CALL, 5), false, Fault(20))],
    &[TAIL_REFUSED, (Frame(BOOTSTRAP, 5), false, Fault(20))],
    // Results of a refused tail call are taken once, and before its Finish.
    &[TAIL_REFUSED, TAKEN, FINISHED],
    &[TAIL_REFUSED, TAKEN, NOT_TAKEN],
    &[TAIL_REFUSED, FINISHED, NOT_TAKEN],
    &[
        CALL_REFUSED,
        NOT_TAKEN,
        (
            Frame(TAKES_KEEPING, 6),
            false,
            Outcome::Heard(Taken(TakenFromOther {
                answer: QuestionId(3),
                release_param_caps: false,
                question: QuestionId(6),
            })),
        ),
    ],
    &[
        TAIL_REFUSED,
        (Frame(BOOTSTRAP, 6), true, Refused(6)),
        TAKEN,
        NOT_TAKEN,
        FINISHED,
        (Frame(BOOTSTRAP, 6), false, Fault(20)),
    ],
    // What asks nothing is heard.
    &[
        CALL_REFUSED,
        (
            Frame(DISEMBARGO, 5),
            false,
            Outcome::Heard(Heard::Frame(Frame(DISEMBARGO, 5))),
        ),
        (
            Frame(RELEASE, 0),
            false,
            Outcome::Heard(Heard::Frame(Frame(RELEASE, 0))),
        ),
        (
            Frame(KEPT, 3),
            false,
            Outcome::Heard(Heard::Frame(Frame(KEPT, 3))),
        ),
        (
            Frame(FINISH, 6),
            false,
            Outcome::Heard(Heard::Frame(Frame(FINISH, 6))),
        ),
    ],
    // Capabilities of the results of a refused question are none.
    &[
        CALL_REFUSED,
        (
            Frame(CALL_OF_REFUSED, 7),
            false,
            Outcome::Heard(Heard::Frame(Frame(CALL_OF_CLEARED, 7))),
        ),
    ],
    &[
        CALL_REFUSED,
        (
            Frame(RESULTS_OF_REFUSED, 3),
            false,
            Outcome::Heard(Heard::Frame(Frame(RESULTS_OF_CLEARED, 3))),
        ),
    ],
    &[
        CALL_REFUSED,
        (
            Frame(TAIL_CALL_OF_REFUSED, 7),
            false,
            Outcome::Heard(TailCall(Frame(CALL_OF_CLEARED, 7))),
        ),
    ],
    &[
        CALL_REFUSED,
        (
            Frame(RESOLVE_TO_REFUSED, 5),
            false,
            Outcome::Heard(Heard::Frame(Frame(RESOLVE_TO_NONE, 9))),
        ),
    ],
];

/// An allocation may be refused (`rt try --test --fail-alloc N`): all is then as it was, and the frame comes again.
fn admission(
    alloc: Global,
    overload: &mut Overload,
    frame: Frame,
    is_full: bool,
) -> Result<Result<Admission, OverloadError>, Fail> {
    let came = envelope(alloc, frame)?;
    match overload.inbound(came, is_full) {
        Err(OverloadError::Memory) => {
            let came = envelope(alloc, frame)?;
            Ok(overload.inbound(came, is_full))
        }
        admission => Ok(admission),
    }
}

fn is_admitted(alloc: Global, admission: Admission, wanted: Outcome) -> Result<bool, Fail> {
    match (admission, wanted) {
        (Admission::Admitted(came), Outcome::Heard(heard)) => is_heard(alloc, came, heard),
        (Admission::Refused(id), Outcome::Refused(wanted)) => Ok(id.0 == wanted),
        (Admission::RefusedTail(id), Outcome::RefusedTail(wanted)) => Ok(id.0 == wanted),
        (Admission::Nothing, Outcome::Nothing) => Ok(true),
        _ => Ok(false),
    }
}

fn is_step(alloc: Global, overload: &mut Overload, step: Step) -> Result<bool, Fail> {
    let (frame, is_full, wanted) = step;
    match admission(alloc, overload, frame, is_full)? {
        Ok(admission) => is_admitted(alloc, admission, wanted),
        Err(OverloadError::Fault(fault)) => {
            Ok(matches!(wanted, Fault(number) if number == fault.code()))
        }
        Err(OverloadError::Memory) => Err(Memory)?,
    }
}

/// Whether each step of a scene comes to what is wanted.
fn is_played(alloc: Global, scene: &[Step]) -> Result<bool, Fail> {
    let mut overload = Overload::new(alloc);
    let mut is_wanted = true;
    for step in scene {
        is_wanted &= is_step(alloc, &mut overload, *step)?;
    }
    Ok(is_wanted)
}

#[test]
fn questions_by_room_and_by_target(rt: HostRuntime) -> Result<(), Fail> {
    for (number, scene) in SCENES.iter().enumerate() {
        let is_played = is_played(rt.alloc(), scene)?;
        assert!(rt; is_played, "scene {number}");
    }
    Ok(())
}

fn says_overloaded(alloc: Global) -> Result<bool, Fail> {
    let message = overloaded(alloc, QuestionId(5))?;
    is_message(alloc, message, Frame(OVERLOADED, 5))
}

#[test]
fn the_peer_is_told_that_the_vat_is_overloaded(rt: HostRuntime) -> Result<(), Fail> {
    let says = says_overloaded(rt.alloc())?;
    assert!(rt; says);
    Ok(())
}

fn is_refused(alloc: Global, overload: &mut Overload, id: u32) -> Result<bool, Fail> {
    let came = Envelope::Message(Message::Plain(PlainMessage::Bootstrap(QuestionId(id))));
    match overload.inbound(came, true) {
        Ok(admission) => is_admitted(alloc, admission, Refused(id)),
        Err(_) => Ok(false),
    }
}

/// Whether 65,536 questions are refused, and the next is a fault if there is no room, and heard if there is.
fn most_are_refused(alloc: Global) -> Result<bool, Fail> {
    let mut overload = Overload::new(alloc);
    let mut is_wanted = true;
    for id in 0..65536 {
        is_wanted &= is_refused(alloc, &mut overload, id)?;
    }
    let next = Frame(BOOTSTRAP, 65536);
    is_wanted &= is_step(alloc, &mut overload, (next, true, Fault(68)))?;
    let heard = Outcome::Heard(Heard::Frame(next));
    Ok(is_wanted && is_step(alloc, &mut overload, (next, false, heard))?)
}

#[test]
fn so_many_refused_questions_may_be_open(rt: HostRuntime) -> Result<(), Fail> {
    let is_wanted = most_are_refused(rt.alloc())?;
    assert!(rt; is_wanted);
    Ok(())
}
