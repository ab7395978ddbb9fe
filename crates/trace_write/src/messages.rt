ghost use Rattle.std.specs.Prelude.{◌≡◌, codes, IfOk, OnOk};
ghost use Rattle.serde_json.specs.Data.{put as with_member, object, member, no_members};
ghost use Rattle.serde_json.specs.View.{view, members_view};
ghost use Rattle.trace_write.specs.Parts.{list, descriptor_data, payload_data, in_base64};
ghost use Rattle.trace_write.specs.Messages.{call_by, body_by, return_by, finish_data, resolved_data, resolve_data, release_data, context_data, disembargo_data, plain_by, message_by};
ghost use Rattle.trace_write.specs.Fits.{FitsAll, FitsPayload, FitsCall, FitsBody, FitsReturn, FitsFinish, FitsResolved, FitsResolve, FitsRelease, FitsContext, FitsDisembargo, FitsDescriptor, FitsPlain, FitsMessage};

use crate::members::{add_member, write_flat, write_number, write_numbers, write_only};
use crate::part::{Part, add_part, put_part, write_under};
use crate::version::TraceVersion;
use rpc_msg::{
    Call, Descriptor, Disembargo, DisembargoContext, Finish, Items, Message, Payload, PlainMessage,
    Release, Resolve, ResolvedTo, Return, ReturnBody,
};
use serde_json::{Map, ToValue, Value};
use std::alloc::{AllocError, Global};

/// Puts a payload and its capabilities beside an object's members.
fn put_content(
    members: &mut Map<String, Value>,
    alloc: Global,
    payload: &Payload,
    descriptors: &Items<Descriptor>,
) -> Result<(), AllocError>
    ensures is { OnOk result (members_view members.new.entries ≡ with_member (codes "payload") (payload_data (in_base64 payload.now)) (
        with_member (codes "caps") (list descriptor_data descriptors.now) (members_view members.old.entries))) }
    ensures fits { OnOk result (FitsAll FitsDescriptor descriptors.now × FitsPayload payload.now) }
{
    put_part(members, alloc, "caps", descriptors)?;
    put_part(members, alloc, "payload", payload)
}

impl Part for Call {
    ghost shown = { call_by in_base64 };

    ghost fits = { FitsCall };

    fn write(&self, alloc: Global) -> Result<Value, AllocError> {
        let method = self.method;
        let question = self.question.0;
        let numbers = &[
            ("interface", self.interface),
            ("method", u64::from(method)),
            ("question", u64::from(question)),
        ];
        let mut members = write_numbers(alloc, numbers)?;
        put_content(&mut members, alloc, &self.payload, &self.descriptors)?;
        put_part(&mut members, alloc, "stamp", &self.stamp)?;
        add_part(members, alloc, "target", &self.target)
    }
}

fn write_results(
    alloc: Global,
    payload: &Payload,
    descriptors: &Items<Descriptor>,
) -> Result<Value, AllocError>
    ensures is { IfOk result (λ v. view v ≡ object (member (codes "caps") (list descriptor_data descriptors.now) (
        member (codes "payload") (payload_data (in_base64 payload.now)) no_members))) }
    ensures fits { OnOk result (FitsAll FitsDescriptor descriptors.now × FitsPayload payload.now) }
{
    let mut members = Map::new(alloc);
    put_content(&mut members, alloc, payload, descriptors)?;
    Ok(Value::Object(members))
}

impl Part for ReturnBody {
    ghost shown = { body_by in_base64 };

    ghost fits = { FitsBody };

    fn write(&self, alloc: Global) -> Result<Value, AllocError> {
        match self {
            ReturnBody::Results(payload, descriptors) => {
                let results = write_results(alloc, payload, descriptors)?;
                write_only(alloc, "results", results)
            }
            ReturnBody::Exception(exception) => write_under(alloc, "exception", exception),
            ReturnBody::Canceled => "canceled".to_value(alloc),
        }
    }
}

fn write_return(alloc: Global, said: &Return, version: TraceVersion) -> Result<Value, AllocError>
    ensures is { IfOk result (λ v. view v ≡ return_by version in_base64 said.now) }
    ensures fits { OnOk result (FitsReturn TraceVersion.Two said.now) }
{
    let answer = u64::from(said.answer.0);
    let mut members = write_numbers(alloc, &[("answer", answer)])?;
    put_part(&mut members, alloc, "body", &said.body)?;
    let flag = Value::Bool(said.release_param_caps);
    match version {
        TraceVersion::One => add_member(members, alloc, "release", flag),
        TraceVersion::Two => add_member(members, alloc, "releaseParamCaps", flag),
    }
}

fn write_finish(alloc: Global, finish: &Finish, version: TraceVersion) -> Result<Value, AllocError>
    ensures is { IfOk result (λ v. view v ≡ finish_data version finish.now) }
    ensures fits { OnOk result (FitsFinish TraceVersion.Two finish.now) }
{
    let question = u64::from(finish.question.0);
    let members = write_numbers(alloc, &[("question", question)])?;
    let flag = Value::Bool(finish.release_result_caps);
    match version {
        TraceVersion::One => add_member(members, alloc, "release", flag),
        TraceVersion::Two => add_member(members, alloc, "releaseResultCaps", flag),
    }
}

impl Part for ResolvedTo {
    ghost shown = { resolved_data };

    ghost fits = { FitsResolved };

    fn write(&self, alloc: Global) -> Result<Value, AllocError> {
        match self {
            ResolvedTo::Cap(descriptor) => write_under(alloc, "cap", descriptor),
            ResolvedTo::Exception(exception) => write_under(alloc, "exception", exception),
        }
    }
}

impl Part for Resolve {
    ghost shown = { resolve_data };

    ghost fits = { FitsResolve };

    fn write(&self, alloc: Global) -> Result<Value, AllocError> {
        let promise = u64::from(self.promise.0);
        let members = write_numbers(alloc, &[("promise", promise)])?;
        add_part(members, alloc, "to", &self.to)
    }
}

impl Part for Release {
    ghost shown = { release_data };

    ghost fits = { FitsRelease };

    fn write(&self, alloc: Global) -> Result<Value, AllocError> {
        let count = u64::from(self.count);
        let export = u64::from(self.export.0);
        write_flat(alloc, &[("count", count), ("id", export)])
    }
}

impl Part for DisembargoContext {
    ghost shown = { context_data };

    ghost fits = { FitsContext };

    fn write(&self, alloc: Global) -> Result<Value, AllocError> {
        match self {
            DisembargoContext::SenderLoopback(id) => write_number(alloc, "senderLoopback", id.0),
            DisembargoContext::ReceiverLoopback(id) => {
                write_number(alloc, "receiverLoopback", id.0)
            }
        }
    }
}

impl Part for Disembargo {
    ghost shown = { disembargo_data };

    ghost fits = { FitsDisembargo };

    fn write(&self, alloc: Global) -> Result<Value, AllocError> {
        let mut members = Map::new(alloc);
        put_part(&mut members, alloc, "context", &self.context)?;
        add_part(members, alloc, "target", &self.target)
    }
}

/// A message that is no Unimplemented, as lines of that version have it.
pub fn write_plain(
    alloc: Global,
    message: &PlainMessage,
    version: TraceVersion,
) -> Result<Value, AllocError>
    ensures is { IfOk result (λ v. view v ≡ plain_by version in_base64 message.now) }
    ensures fits { OnOk result (FitsPlain TraceVersion.Two message.now) }
{
    match message {
        PlainMessage::Abort(exception) => write_under(alloc, "abort", exception),
        PlainMessage::Bootstrap(question) => {
            let bootstrap = write_number(alloc, "question", question.0)?;
            write_only(alloc, "bootstrap", bootstrap)
        }
        PlainMessage::Call(call) => write_under(alloc, "call", call),
        PlainMessage::Return(said) => {
            let said = write_return(alloc, said, version)?;
            write_only(alloc, "return", said)
        }
        PlainMessage::Finish(finish) => {
            let finish = write_finish(alloc, finish, version)?;
            write_only(alloc, "finish", finish)
        }
        PlainMessage::Resolve(resolve) => write_under(alloc, "resolve", resolve),
        PlainMessage::Release(release) => write_under(alloc, "release", release),
        PlainMessage::Disembargo(disembargo) => write_under(alloc, "disembargo", disembargo),
        PlainMessage::Other(number) => write_only(alloc, "other", Value::from(*number)),
    }
}

pub(crate) fn write_message(
    alloc: Global,
    message: &Message,
    version: TraceVersion,
) -> Result<Value, AllocError>
    ensures is { IfOk result (λ v. view v ≡ message_by version in_base64 message.now) }
    ensures fits { OnOk result (FitsMessage TraceVersion.Two message.now) }
{
    match message {
        Message::Plain(plain) => write_plain(alloc, plain, version),
        Message::Unimplemented(plain) => {
            let plain = write_plain(alloc, plain, version)?;
            write_only(alloc, "unimplemented", plain)
        }
    }
}
