// What an event says in numbers.
ghost use Rattle.std.specs.Prelude.{◌≡◌};
ghost use Rattle.vat_host.specs.declared.event.Event.TheVariants as event;
ghost use Rattle.lovendak_c_desk.specs.Notices.{bytes_of, bytes_of_outcome, notice_of, number_of_kind, refs_of, silent};

use crate::lead::{ANSWER, IMPORT};
use rpc_msg::{ExceptionKind, RefId};
use vat_connection::{Delivery, Ended, Event, Outcome, PeerPlace};

/// What an event says in numbers. Fields that a kind doesn't have are 0.
#[repr(C)]
#[derive(Clone, Copy, Debug, PartialEq, Eq, Drop)]
pub struct Notice {
    /// What it tells. 1: a call to serve. 2: an own call that ended. 3: the vat is down. 4: an object is released. 5: a task is cancelled.
    /// 6: what stands at a place of the peer is known. 7: the embargo of a reference is over.
    pub kind: u32,
    /// Of 1: its method.
    pub method: u32,
    /// Of 2: 1 if it ended with an exception.
    pub is_exception: u32,
    /// Of 2 with an exception: its kind, as `Exception.Type` counts them.
    pub exception: u32,
    /// Of 6: which kind of place it is, as `Lead::kind`.
    pub place: u32,
    /// Of 1 and 5 the task, of 2 the call, of 3 the number with which the vat went down, of 6 the number of the place, of 7 the
    /// reference.
    pub number: u64,
    /// Of 1: the object that is called. Of 4: the object.
    pub object: u64,
    /// Of 1: its interface.
    pub interface_id: u64,
    /// How many bytes its payload has, or the reason of its exception, or of the peer's Abort.
    pub payload_len: usize,
    /// How many references came with it.
    pub refs_len: usize,
}

impl Notice {
    /// One that says nothing.
    pub fn new() -> Notice
        ensures { result ≡ silent }
    {
        Notice {
            kind: 0,
            method: 0,
            is_exception: 0,
            exception: 0,
            place: 0,
            number: 0,
            object: 0,
            interface_id: 0,
            payload_len: 0,
            refs_len: 0,
        }
    }

    /// What this event says.
    pub(crate) fn of(event: &Event) -> Notice
        ensures { result ≡ notice_of event.now }
    {
        match event {
            Event::Served(delivery) => Notice::of_delivery(delivery),
            Event::Ended(ended) => Notice::of_ended(ended),
            Event::Resolved(place) => Notice::of_place(*place),
            Event::Lifted(reference) => Notice {
                kind: 7,
                number: reference.0,
                ..Notice::new()
            },
            Event::Cancelled(task) => Notice {
                kind: 5,
                number: task.0,
                ..Notice::new()
            },
            Event::Released(object) => Notice {
                kind: 4,
                object: object.0,
                ..Notice::new()
            },
            Event::Down(number, reason) => Notice {
                kind: 3,
                number: u64::from(*number),
                payload_len: reason.as_str().as_bytes().len(),
                ..Notice::new()
            },
        }
    }

    fn of_delivery(delivery: &Delivery) -> Notice
        ensures { result ≡ notice_of (event.Served delivery.now) }
    {
        Notice {
            kind: 1,
            method: u32::from(delivery.method),
            number: delivery.task.0,
            object: delivery.object.0,
            interface_id: delivery.interface,
            payload_len: delivery.payload.bytes().len(),
            refs_len: delivery.refs.len(),
            ..Notice::new()
        }
    }

    fn of_place(place: PeerPlace) -> Notice
        ensures { result ≡ notice_of (event.Resolved place) }
    {
        let notice = Notice {
            kind: 6,
            ..Notice::new()
        };
        match place {
            PeerPlace::Import(id) => Notice {
                place: IMPORT,
                number: u64::from(id.0),
                ..notice
            },
            PeerPlace::Question(id) => Notice {
                place: ANSWER,
                number: u64::from(id.0),
                ..notice
            },
        }
    }

    fn of_ended(ended: &Ended) -> Notice
        ensures { result ≡ notice_of (event.Ended ended.now) }
    {
        let notice = Notice {
            kind: 2,
            number: ended.call.0,
            payload_len: bytes_of_outcome(&ended.outcome).len(),
            refs_len: ended.refs.len(),
            ..Notice::new()
        };
        match &ended.outcome {
            Outcome::Results(_) => notice,
            Outcome::Exception(exception) => Notice {
                is_exception: 1,
                exception: number_of_kind(exception.kind),
                ..notice
            },
        }
    }
}

/// The number of a kind, as `Exception.Type` counts them.
fn number_of_kind(kind: ExceptionKind) -> u32
    ensures { result ≡ number_of_kind kind }
{
    match kind {
        ExceptionKind::Failed => 0,
        ExceptionKind::Overloaded => 1,
        ExceptionKind::Disconnected => 2,
        ExceptionKind::Unimplemented => 3,
    }
}

/// The bytes that an event carries: of a payload, or of the reason of an exception or of the peer's Abort.
pub(crate) fn bytes_of(event: &Event) -> &[u8]
    ensures { result.now ≡ bytes_of event.now }
{
    match event {
        Event::Served(delivery) => delivery.payload.bytes(),
        Event::Ended(ended) => bytes_of_outcome(&ended.outcome),
        Event::Down(_, reason) => reason.as_str().as_bytes(),
        Event::Resolved(_) | Event::Lifted(_) | Event::Cancelled(_) | Event::Released(_) => &[],
    }
}

fn bytes_of_outcome(outcome: &Outcome) -> &[u8]
    ensures { result.now ≡ bytes_of_outcome outcome.now }
{
    match outcome {
        Outcome::Results(payload) => payload.bytes(),
        Outcome::Exception(exception) => exception.reason.as_str().as_bytes(),
    }
}

/// The references that came with an event.
pub(crate) fn refs_of(event: &Event) -> &[RefId]
    ensures { result.now ≡ refs_of event.now }
{
    match event {
        Event::Served(delivery) => delivery.refs.as_slice(),
        Event::Ended(ended) => ended.refs.as_slice(),
        Event::Resolved(_)
        | Event::Lifted(_)
        | Event::Cancelled(_)
        | Event::Released(_)
        | Event::Down(..) => &[],
    }
}
