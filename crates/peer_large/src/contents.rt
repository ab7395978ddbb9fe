//! How much a frame brings.
ghost use Rattle.std.specs.Prelude.{◌≡◌};
ghost use Rattle.rpc_codec.specs.Envelopes.{seen_envelope};
ghost use Rattle.peer_large.specs.Contents.{body_words, content_words, plain_words, what_words, words_of};
ghost use Rattle.peer_large.specs.Opening.{seen};

use crate::opening::Opened;
use rpc_codec::Envelope;
use rpc_msg::{Message, Payload, PlainMessage, ReturnBody};

const BYTES_OF_A_WORD: u64 = 8;

impl Opened {
    /// The words of the contents of a Call or of results, laid out by themselves; of everything else none. They may be more than those of
    /// the frame, whose pointers may lead to one place many times.
    pub fn content_words(&self) -> u64
        ensures { result ≡ content_words (seen self.now) }
    {
        match self {
            Opened::Envelope(envelope) => what_words(envelope),
            Opened::Spared(_, _) => 0,
        }
    }
}

fn what_words(envelope: &Envelope) -> u64
    ensures { result ≡ what_words (seen_envelope envelope.now) }
{
    match envelope {
        Envelope::Message(Message::Plain(message)) => plain_words(message),
        Envelope::TailCall(call) => words_of(&call.payload),
        _ => 0,
    }
}

fn plain_words(message: &PlainMessage) -> u64
    ensures { result ≡ plain_words message.now }
{
    match message {
        PlainMessage::Call(call) => words_of(&call.payload),
        PlainMessage::Return(said) => body_words(&said.body),
        _ => 0,
    }
}

fn body_words(body: &ReturnBody) -> u64
    ensures { result ≡ body_words body.now }
{
    match body {
        ReturnBody::Results(payload, _) => words_of(payload),
        _ => 0,
    }
}

fn words_of(payload: &Payload) -> u64
    ensures { result ≡ words_of payload.now }
{
    payload.bytes().len() as u64 / BYTES_OF_A_WORD
}
