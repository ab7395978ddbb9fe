//! What a vat tells, in short.
use rpc_msg::{CallId, CapAt, Exception, ExceptionKind, Op, Payload, QuestionId, RefId, TaskId};
use vat_connection::{Connection, Delivery, Ended, Event, ObjectId, Outcome, PeerPlace};

/// The number with which a vat goes down by its peer's Abort.
const ABORTED: u16 = 34;

/// An event, with what came with it.
#[derive(Clone, Copy, PartialEq, Eq)]
pub(crate) enum Told {
    Nothing,
    Served(TaskId, Given),
    Ended(CallId, Came, Given),
    Resolved(PeerPlace),
    Lifted(RefId),
    Cancelled(TaskId),
    Released(ObjectId),
    Down(u16),
    /// It went down by the peer's Abort, whose reason says that fault.
    Aborted(u16),
}

/// The references that came.
#[derive(Clone, Copy, PartialEq, Eq)]
pub(crate) enum Given {
    Nothing,
    One(RefId),
    More,
}

/// What a call came to.
#[derive(Clone, Copy, PartialEq, Eq)]
pub(crate) enum Came {
    Results,
    /// Two capabilities, of which the first is null and the second has its place.
    NullFirst,
    /// The connection ended, and that is said in words.
    CutOff,
    /// It ended, and memory was wanting for the words.
    CutOffWithoutWords,
    Exception,
}

/// The results of the first question are known.
pub(crate) const RESOLVED: Told = Told::Resolved(PeerPlace::Question(QuestionId(0)));

/// What a connection tells next.
pub(crate) fn next(connection: &mut Connection) -> Told {
    match connection.next_event() {
        Some(event) => said_by(&event),
        None => Told::Nothing,
    }
}

pub(crate) fn said_by(event: &Event) -> Told {
    match event {
        Event::Served(task) => served(task),
        Event::Ended(call) => ended(call),
        Event::Resolved(place) => Told::Resolved(*place),
        Event::Lifted(reference) => Told::Lifted(*reference),
        Event::Cancelled(task) => Told::Cancelled(*task),
        Event::Released(object) => Told::Released(*object),
        Event::Down(number, reason) => down(*number, reason.as_str()),
    }
}

fn down(number: u16, reason: &str) -> Told {
    match fault_in(reason) {
        Some(fault) if number == ABORTED => Told::Aborted(fault),
        _ => Told::Down(number),
    }
}

fn fault_in(reason: &str) -> Option<u16> {
    let number = reason.strip_prefix("fault ")?;
    number.parse().ok()
}

fn served(task: &Delivery) -> Told {
    Told::Served(task.task, refs_in(&task.refs))
}

fn ended(call: &Ended) -> Told {
    Told::Ended(call.call, outcome_of(&call.outcome), refs_in(&call.refs))
}

fn refs_in(refs: &[RefId]) -> Given {
    match refs {
        [] => Given::Nothing,
        [reference] => Given::One(*reference),
        _ => Given::More,
    }
}

fn outcome_of(outcome: &Outcome) -> Came {
    match outcome {
        Outcome::Results(payload) if is_null_first(payload) => Came::NullFirst,
        Outcome::Results(_) => Came::Results,
        Outcome::Exception(exception) => cut_off(exception),
    }
}

fn is_null_first(payload: &Payload) -> bool {
    payload.caps() == 2
        && payload.cap_at(&[Op::Field(1)]) == CapAt::Null
        && payload.cap_at(&[Op::Field(2)]) == CapAt::Cap(1)
}

fn cut_off(exception: &Exception) -> Came {
    if exception.kind != ExceptionKind::Disconnected {
        return Came::Exception;
    }
    match exception.reason.as_str() {
        "the connection ended" => Came::CutOff,
        "" => Came::CutOffWithoutWords,
        _ => Came::Exception,
    }
}
