//! The descriptors of an envelope, and the envelope with others in their place.
ghost use Rattle.std.specs.Prelude.{◌≡◌};
ghost use Rattle.rpc_codec.specs.Carried.{descriptors_in};
ghost use Rattle.rpc_codec.specs.Envelopes.{seen_envelope};
ghost use Rattle.peer_descriptors.specs.Replacing.{call_with, return_with, body_with, first_or, resolve_with, resolved_with, plain_with, message_with, what_with};

use rpc_codec::Envelope;
use rpc_msg::{
    Call, Descriptor, Items, Message, PlainMessage, Resolve, ResolvedTo, Return, ReturnBody,
};

/// The descriptors of what came. Takes no memory.
pub fn descriptors_in(came: &Envelope) -> &[Descriptor]
    ensures { result.now ≡ descriptors_in (seen_envelope came.now) }
{
    match came {
        Envelope::Message(message) => message.descriptors(),
        Envelope::TailCall(call) => call.descriptors.as_slice(),
        _ => &[],
    }
}

/// What came, with these descriptors in place of its own: as many as it has. Takes no memory.
pub fn envelope_with(came: Envelope, heard: Items<Descriptor>) -> Envelope
    ensures { seen_envelope result ≡ what_with (seen_envelope came) heard }
{
    match came {
        Envelope::Message(message) => Envelope::Message(message_with(message, heard)),
        Envelope::TailCall(call) => Envelope::TailCall(call_with(call, heard)),
        _ => came,
    }
}

fn message_with(message: Message, heard: Items<Descriptor>) -> Message
    ensures { result ≡ message_with message heard }
{
    match message {
        Message::Plain(message) => Message::Plain(plain_with(message, heard)),
        Message::Unimplemented(_) => message,
    }
}

fn plain_with(message: PlainMessage, heard: Items<Descriptor>) -> PlainMessage
    ensures { result ≡ plain_with message heard }
{
    match message {
        PlainMessage::Call(call) => PlainMessage::Call(call_with(call, heard)),
        PlainMessage::Return(said) => PlainMessage::Return(return_with(said, heard)),
        PlainMessage::Resolve(resolve) => PlainMessage::Resolve(resolve_with(resolve, &heard)),
        _ => message,
    }
}

fn call_with(call: Call, heard: Items<Descriptor>) -> Call
    ensures { result ≡ call_with call heard }
{
    let Call {
        question,
        target,
        interface,
        method,
        payload,
        descriptors: _,
        stamp,
    } = call;
    Call {
        question,
        target,
        interface,
        method,
        payload,
        descriptors: heard,
        stamp,
    }
}

fn return_with(said: Return, heard: Items<Descriptor>) -> Return
    ensures { result ≡ return_with said heard }
{
    let Return {
        answer,
        release_param_caps,
        body,
    } = said;
    let body = body_with(body, heard);
    Return {
        answer,
        release_param_caps,
        body,
    }
}

fn body_with(body: ReturnBody, heard: Items<Descriptor>) -> ReturnBody
    ensures { result ≡ body_with body heard }
{
    match body {
        ReturnBody::Results(payload, _) => ReturnBody::Results(payload, heard),
        _ => body,
    }
}

fn resolve_with(resolve: Resolve, heard: &[Descriptor]) -> Resolve
    ensures { result ≡ resolve_with resolve heard.now }
{
    let Resolve { promise, to } = resolve;
    let to = resolved_with(to, heard);
    Resolve { promise, to }
}

fn resolved_with(to: ResolvedTo, heard: &[Descriptor]) -> ResolvedTo
    ensures { result ≡ resolved_with to heard.now }
{
    match to {
        ResolvedTo::Cap(descriptor) => ResolvedTo::Cap(first_or(heard, descriptor)),
        ResolvedTo::Exception(_) => to,
    }
}

fn first_or(heard: &[Descriptor], descriptor: Descriptor) -> Descriptor
    ensures { result ≡ first_or heard.now descriptor }
{
    match heard.first() {
        Some(first) => *first,
        None => descriptor,
    }
}
