//! Messages that may go out.
ghost use Rattle.std.specs.Prelude.{◌≡◌};
ghost use Rattle.std.specs.List.{list_all};
ghost use Rattle.rpc_outgoing.specs.Outflows.{asks_within, describes_contents, is_described, is_described_body, is_described_plain, is_named_within, is_sound, names_within};

use rpc_msg::{Descriptor, Items, Message, Payload, PlainMessage, ReturnBody};

/// How many questions and how many exports a vat may have at once.
const MOST_IDS: u32 = 4_096;

/// The most descriptors of a payload.
const MOST_DESCRIPTORS: usize = 4_096;

/// Asks a message no question and names no export beyond those that a vat may have, and has it a descriptor for each capability?
pub(crate) fn is_sound(message: &Message) -> bool
    ensures { result ≡ is_sound message.now }
{
    asks_within(message) && names_within(message) && describes_contents(message)
}

fn asks_within(message: &Message) -> bool
    ensures { result ≡ asks_within message.now }
{
    match message {
        Message::Plain(PlainMessage::Bootstrap(question)) => question.0 < MOST_IDS,
        Message::Plain(PlainMessage::Call(call)) => call.question.0 < MOST_IDS,
        _ => true,
    }
}

fn is_named_within(descriptor: &Descriptor) -> bool
    ensures { result ≡ is_named_within descriptor.now }
{
    match descriptor {
        Descriptor::SenderHosted(export) => export.0 < MOST_IDS,
        Descriptor::SenderPromise(export) => export.0 < MOST_IDS,
        _ => true,
    }
}

fn are_named_within(descriptors: &[Descriptor]) -> bool
    ensures { result ≡ list_all is_named_within descriptors.now }
{
    for descriptor in descriptors {
        if !is_named_within(descriptor) {
            return false;
        }
    }
    true
}

fn names_within(message: &Message) -> bool
    ensures { result ≡ names_within message.now }
{
    are_named_within(message.descriptors())
}

fn is_described(payload: &Payload, descriptors: &Items<Descriptor>) -> bool
    ensures { result ≡ is_described payload.now descriptors.now }
{
    payload.caps() as usize == descriptors.len() && descriptors.len() <= MOST_DESCRIPTORS
}

fn is_described_plain(message: &PlainMessage) -> bool
    ensures { result ≡ is_described_plain message.now }
{
    match message {
        PlainMessage::Call(call) => is_described(&call.payload, &call.descriptors),
        PlainMessage::Return(said) => is_described_body(&said.body),
        _ => true,
    }
}

fn is_described_body(body: &ReturnBody) -> bool
    ensures { result ≡ is_described_body body.now }
{
    match body {
        ReturnBody::Results(payload, descriptors) => is_described(payload, descriptors),
        _ => true,
    }
}

fn describes_contents(message: &Message) -> bool
    ensures { result ≡ describes_contents message.now }
{
    match message {
        Message::Plain(plain) => is_described_plain(plain),
        Message::Unimplemented(plain) => is_described_plain(plain),
    }
}
