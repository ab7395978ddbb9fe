//! Frames of live vats, made ones and mutated ones, a line of `stdin` each in hexadecimal. Each is decoded, and what it
//! says is printed: a message or a tail call as it is encoded again, what is not understood as it is sent back, a fault
//! by its number.
#![tactic(auto)]

use anyhow::{Result, anyhow};
use rpc_codec::{DecodeError, Envelope, decode, echo, encode};
use rpc_msg::{Message, PlainMessage, RefId, Stamp, Vat};

const STAMP: Stamp = Stamp {
    vat: Vat::A,
    reference: RefId(0),
    index: 0,
};

fn show(rt: &HostRuntime, bytes: &[u8]) -> Result<()> {
    let digits = hex::encode(rt.alloc(), bytes)?;
    println!(rt; "{digits}")?;
    Ok(())
}

/// A message, as the bytes of its frame.
fn show_message(rt: &HostRuntime, kind: &str, message: &Message) -> Result<()> {
    let frame = encode(rt.alloc(), message).map_err(|error| anyhow!("{error}"))?;
    print!(rt; "{kind} ")?;
    show(rt, frame.bytes())
}

fn show_envelope(rt: &HostRuntime, envelope: Envelope) -> Result<()> {
    match envelope {
        Envelope::Message(message) => show_message(rt, "message", &message)?,
        Envelope::TailCall(call) => {
            let message = Message::Plain(PlainMessage::Call(call));
            show_message(rt, "tailCall", &message)?;
        }
        Envelope::SentElsewhere(said) => {
            println!(rt;
                "resultsSentElsewhere {} {}",
                said.answer.0, said.release_param_caps
            )?;
        }
        Envelope::TakenFromOther(said) => {
            println!(rt;
                "takeFromOtherQuestion {} {} {}",
                said.answer.0, said.release_param_caps, said.question.0
            )?;
        }
        Envelope::Unknown(unknown) => {
            let number = unknown.number;
            let frame = echo(rt.alloc(), unknown.original).map_err(|error| anyhow!("{error}"))?;
            print!(rt; "unknown {number} ")?;
            show(rt, frame.bytes())?;
        }
    }
    Ok(())
}

fn show_line(rt: &HostRuntime, line: &str) -> Result<()> {
    let bytes = hex::decode(rt.alloc(), line)?;
    match decode(rt.alloc(), bytes.as_slice(), STAMP) {
        Ok(envelope) => show_envelope(rt, envelope)?,
        Err(DecodeError::Memory) => println!(rt; "memory")?,
        Err(DecodeError::Fault(fault)) => println!(rt; "fault {}", fault.code())?,
    }
    Ok(())
}

fn main(rt: HostRuntime) -> Result<()> {
    for line in rt.lines(rt.alloc()) {
        show_line(&rt, line?.as_str())?;
    }
    Ok(())
}
