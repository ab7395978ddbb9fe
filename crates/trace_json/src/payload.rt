ghost use Rattle.std.specs.Prelude.{◌≡◌};
ghost use Rattle.trace_json.specs.Filled.{filled_outcome, filled_body, filled_plain, filled_message, filled};

use rpc_journal::{JournalEntry, Outcome};
use rpc_msg::{Message, Payload, PlainMessage, ReturnBody};

fn fill_outcome(payload: Payload, outcome: &mut Outcome)
    ensures { outcome.new ≡ filled_outcome payload outcome.old }
{
    match outcome {
        Outcome::Results(old) => *old = payload,
        Outcome::Exception(_) => {}
    }
}

fn fill_body(payload: Payload, body: &mut ReturnBody)
    ensures { body.new ≡ filled_body payload body.old }
{
    match body {
        ReturnBody::Results(old, _) => *old = payload,
        _ => {}
    }
}

fn fill_plain(payload: Payload, message: &mut PlainMessage)
    ensures { message.new ≡ filled_plain payload message.old }
{
    match message {
        PlainMessage::Call(call) => call.payload = payload,
        PlainMessage::Return(said) => fill_body(payload, &mut said.body),
        _ => {}
    }
}

fn fill_message(payload: Payload, message: &mut Message)
    ensures { message.new ≡ filled_message payload message.old }
{
    match message {
        Message::Plain(plain) => fill_plain(payload, plain),
        Message::Unimplemented(plain) => fill_plain(payload, plain),
    }
}

/// Puts that payload in the place of the entry's own.
pub(crate) fn fill(payload: Payload, entry: &mut JournalEntry)
    ensures { entry.new ≡ filled payload entry.old }
{
    match entry {
        JournalEntry::Made(_, made) => made.payload = payload,
        JournalEntry::Delivered(_, delivery) => delivery.payload = payload,
        JournalEntry::Answered(_, _, outcome, _) => fill_outcome(payload, outcome),
        JournalEntry::Ended(_, ended) => fill_outcome(payload, &mut ended.outcome),
        JournalEntry::Sent(_, message) => fill_message(payload, message),
        _ => {}
    }
}
