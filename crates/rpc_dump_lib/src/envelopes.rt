//! What a frame says, as JSON.
ghost use Rattle.std.specs.Prelude.{◌≡◌, IfOk};
ghost use Rattle.serde_json.specs.View.{view};
ghost use Rattle.rpc_codec.specs.Envelopes.{seen_envelope};
ghost use Rattle.rpc_dump_lib.specs.Lines.{call_as, known_as, message_as, elsewhere_data, taken_data, what_as};

use crate::payloads::{write_payload, write_return};
use rpc_codec::{Envelope, SentElsewhere, TakenFromOther};
use rpc_msg::{Call, Message, PlainMessage};
use serde_json::Value;
use std::alloc::{AllocError, Global};
use trace_write::{
    TraceVersion, add_member, put_part, write_number, write_numbers, write_only, write_plain,
};

fn write_call(alloc: Global, call: &Call, trees: bool) -> Result<Value, AllocError>
    ensures { IfOk result (λ v. view v ≡ call_as trees call.now) }
{
    let payload = write_payload(alloc, &call.payload, trees)?;
    let numbers = &[
        ("interface", call.interface),
        ("method", u64::from(call.method)),
        ("question", u64::from(call.question.0)),
    ];
    let mut members = write_numbers(alloc, numbers)?;
    put_part(&mut members, alloc, "caps", &call.descriptors)?;
    put_part(&mut members, alloc, "target", &call.target)?;
    add_member(members, alloc, "payload", payload)
}

/// A message that is no Unimplemented.
fn write_known(alloc: Global, message: &PlainMessage, trees: bool) -> Result<Value, AllocError>
    ensures { IfOk result (λ v. view v ≡ known_as trees message.now) }
{
    match message {
        PlainMessage::Call(call) => {
            let call = write_call(alloc, call, trees)?;
            write_only(alloc, "call", call)
        }
        PlainMessage::Return(said) => {
            let said = write_return(alloc, said, trees)?;
            write_only(alloc, "return", said)
        }
        _ => write_plain(alloc, message, TraceVersion::Two),
    }
}

fn write_message(alloc: Global, message: &Message, trees: bool) -> Result<Value, AllocError>
    ensures { IfOk result (λ v. view v ≡ message_as trees message.now) }
{
    match message {
        Message::Plain(known) => write_known(alloc, known, trees),
        Message::Unimplemented(known) => {
            let known = write_known(alloc, known, trees)?;
            write_only(alloc, "unimplemented", known)
        }
    }
}

fn write_elsewhere(alloc: Global, sent: SentElsewhere) -> Result<Value, AllocError>
    ensures { IfOk result (λ v. view v ≡ elsewhere_data sent) }
{
    let members = write_numbers(alloc, &[("answer", u64::from(sent.answer.0))])?;
    let flag = Value::Bool(sent.release_param_caps);
    add_member(members, alloc, "releaseParamCaps", flag)
}

fn write_taken(alloc: Global, taken: TakenFromOther) -> Result<Value, AllocError>
    ensures { IfOk result (λ v. view v ≡ taken_data taken) }
{
    let numbers = &[
        ("answer", u64::from(taken.answer.0)),
        ("question", u64::from(taken.question.0)),
    ];
    let members = write_numbers(alloc, numbers)?;
    let flag = Value::Bool(taken.release_param_caps);
    add_member(members, alloc, "releaseParamCaps", flag)
}

/// What a frame says. With `trees` each payload has its tree, too.
pub fn write_envelope(alloc: Global, envelope: &Envelope, trees: bool) -> Result<Value, AllocError>
    ensures { IfOk result (λ v. view v ≡ what_as trees (seen_envelope envelope.now)) }
{
    match envelope {
        Envelope::Message(message) => write_message(alloc, message, trees),
        Envelope::TailCall(call) => {
            let call = write_call(alloc, call, trees)?;
            write_only(alloc, "tailCall", call)
        }
        Envelope::SentElsewhere(sent) => {
            let sent = write_elsewhere(alloc, *sent)?;
            write_only(alloc, "resultsSentElsewhere", sent)
        }
        Envelope::TakenFromOther(taken) => {
            let taken = write_taken(alloc, *taken)?;
            write_only(alloc, "takeFromOtherQuestion", taken)
        }
        Envelope::Unknown(unknown) => write_number(alloc, "unknown", u32::from(unknown.number)),
    }
}
