//! What comes and what goes are frames, and what is wanted of them too: a frame shows the whole message.
mod broken;
mod composed;
mod finishes;
mod frames;
mod kinds;
mod overload;
mod tail_calls;

use rpc_codec::{Envelope, SentElsewhere, TakenFromOther, decode, encode, encode_sent_elsewhere};
use rpc_msg::{Call, Message, PlainMessage, RefId, Stamp, Vat};
use std::alloc::{AllocError, Global};
use std::test::Fail;

/// A text of `frames`, and the number that is meant by its `#`.
#[derive(Clone, Copy, Drop)]
struct Frame(&'static str, u32);

/// What is heard.
#[derive(Clone, Copy, Drop)]
enum Heard {
    Frame(Frame),
    /// A tail call, by the frame of the same call without that mark.
    TailCall(Frame),
    Taken(TakenFromOther),
}

const STAMP: Stamp = Stamp {
    vat: Vat::B,
    reference: RefId(0),
    index: 0,
};

/// The bytes of a frame. What is neither a digit nor `#` only divides.
fn bytes_of(alloc: Global, frame: Frame) -> Result<Vec<u8>, AllocError> {
    let Frame(text, number) = frame;
    let mut bytes = Vec::new(alloc);
    let mut high = None;
    for c in text.bytes() {
        let digit = match c {
            b'0'..=b'9' => c - b'0',
            b'a'..=b'f' => c - b'a' + 10,
            b'#' => {
                bytes.extend_from_slice(&number.to_le_bytes())?;
                continue;
            }
            _ => continue,
        };
        high = match high {
            None => Some(digit),
            Some(first) => {
                bytes.push(first << 4 | digit)?;
                None
            }
        };
    }
    Ok(bytes)
}

fn envelope(alloc: Global, frame: Frame) -> Result<Envelope, Fail> {
    let bytes = bytes_of(alloc, frame)?;
    Ok(decode(alloc, &bytes, STAMP)?)
}

fn is_frame(alloc: Global, message: &Message, wanted: Frame) -> Result<bool, Fail> {
    let frame = encode(alloc, message)?;
    let wanted = bytes_of(alloc, wanted)?;
    Ok(frame.bytes() == wanted.as_slice())
}

fn is_kept(alloc: Global, kept: SentElsewhere, wanted: Frame) -> Result<bool, Fail> {
    let frame = encode_sent_elsewhere(alloc, kept)?;
    let wanted = bytes_of(alloc, wanted)?;
    Ok(frame.bytes() == wanted.as_slice())
}

// A message is let go where it is taken by value, at one place: each place at which one goes is dear to prove.
fn is_message(alloc: Global, message: Message, wanted: Frame) -> Result<bool, Fail> {
    is_frame(alloc, &message, wanted)
}

fn is_call(alloc: Global, call: Call, wanted: Frame) -> Result<bool, Fail> {
    is_message(alloc, Message::Plain(PlainMessage::Call(call)), wanted)
}

fn is_heard(alloc: Global, came: Envelope, wanted: Heard) -> Result<bool, Fail> {
    match (came, wanted) {
        (Envelope::Message(message), Heard::Frame(frame)) => is_message(alloc, message, frame),
        (Envelope::TailCall(call), Heard::TailCall(frame)) => is_call(alloc, call, frame),
        (Envelope::SentElsewhere(kept), Heard::Frame(frame)) => is_kept(alloc, kept, frame),
        (Envelope::TakenFromOther(taken), Heard::Taken(wanted)) => Ok(taken == wanted),
        _ => Ok(false),
    }
}
