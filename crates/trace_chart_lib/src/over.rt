use crate::bars::CallAt;
use rpc_journal::JournalEntry;
use rpc_msg::{CallId, EmbargoId, Message, PlainMessage, QuestionId, Stamp, Vat};

/// What is over at a vat.
#[derive(Clone, Copy, PartialEq, Eq, PartialOrd, Ord, Drop)]
pub(crate) enum Over {
    /// The embargo with that id.
    Embargo(EmbargoId),
    /// The call goes on from there.
    GoesOn(Stamp),
    /// The call that the vat's application made has its outcome.
    Ended(CallId),
    /// The call that the other vat sent has its outcome.
    Returned(QuestionId),
    All,
}

impl Over {
    /// What the vat's entry says of a call that waits there.
    pub(crate) fn by(entry: &JournalEntry) -> Option<(Vat, Over)> {
        match entry {
            JournalEntry::Sent(vat, message) => Over::by_sent(message).map(|over| (*vat, over)),
            JournalEntry::Delivered(vat, delivery) => Some((*vat, Over::GoesOn(delivery.stamp))),
            JournalEntry::Ended(vat, ended) => Some((*vat, Over::Ended(ended.call))),
            JournalEntry::Down(vat, _) => Some((*vat, Over::All)),
            _ => None,
        }
    }

    fn by_sent(message: &Message) -> Option<Over> {
        match message {
            Message::Plain(PlainMessage::Call(call)) => Some(Over::GoesOn(call.stamp)),
            Message::Plain(PlainMessage::Return(answer)) => { Some(Over::Returned(answer.answer)) }
            Message::Unimplemented(PlainMessage::Call(call)) => {
                Some(Over::Returned(call.question))
            }
            _ => None,
        }
    }

    pub(crate) fn has_call(&self, call: &CallAt) -> bool {
        *self == Over::All || *self == Over::GoesOn(call.stamp) || *self == call.end
    }
}
