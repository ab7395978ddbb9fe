use crate::bars::CallAt;
use crate::over::Over;
use rpc_journal::JournalEntry;
use rpc_msg::{DisembargoContext, EmbargoId, Message, PlainMessage, Vat};

/// Whether an entry is the first of a step, so that the step before it is over.
pub(crate) fn begins_step(entry: &JournalEntry) -> bool {
    !matches!(
        entry,
        JournalEntry::Sent(..)
            | JournalEntry::Delivered(..)
            | JournalEntry::Ended(..)
            | JournalEntry::Down(..)
    )
}

/// The call that comes with a message.
pub(crate) fn call_of(message: &Message) -> Option<CallAt> {
    let Message::Plain(PlainMessage::Call(call)) = message else {
        return None;
    };
    Some(CallAt {
        stamp: call.stamp,
        end: Over::Returned(call.question),
    })
}

/// The embargo that begins where the message is sent.
pub(crate) fn begun_by(message: &Message) -> Option<EmbargoId> {
    let Message::Plain(PlainMessage::Disembargo(disembargo)) = message else {
        return None;
    };
    match disembargo.context {
        DisembargoContext::SenderLoopback(id) => Some(id),
        DisembargoContext::ReceiverLoopback(_) => None,
    }
}

/// The embargo that is lifted where the message is received.
pub(crate) fn lifted_by(message: &Message) -> Option<EmbargoId> {
    let Message::Plain(PlainMessage::Disembargo(disembargo)) = message else {
        return None;
    };
    match disembargo.context {
        DisembargoContext::SenderLoopback(_) => None,
        DisembargoContext::ReceiverLoopback(id) => Some(id),
    }
}

/// The vat of an entry that is no message's; heads and counts have none.
pub(crate) fn vat_of(entry: &JournalEntry) -> Option<Vat> {
    match entry {
        JournalEntry::Born(vat, ..) => Some(*vat),
        JournalEntry::Asked(vat, ..) => Some(*vat),
        JournalEntry::Made(vat, ..) => Some(*vat),
        JournalEntry::Delivered(vat, ..) => Some(*vat),
        JournalEntry::Answered(vat, ..) => Some(*vat),
        JournalEntry::Ended(vat, ..) => Some(*vat),
        JournalEntry::Resolved(vat, ..) => Some(*vat),
        JournalEntry::Rejected(vat, ..) => Some(*vat),
        JournalEntry::Dropped(vat, ..) => Some(*vat),
        JournalEntry::Finished(vat, ..) => Some(*vat),
        JournalEntry::Advanced(vat, ..) => Some(*vat),
        JournalEntry::Refused(vat, ..) => Some(*vat),
        JournalEntry::Down(vat, ..) => Some(*vat),
        _ => None,
    }
}
