//! Messages.
use crate::parts::{
    write_descriptor, write_descriptors, write_exception, write_flag, write_numbered,
    write_payload, write_stamp, write_target,
};
use rpc_msg::{
    Call, Disembargo, DisembargoContext, Message, PlainMessage, Resolve, ResolvedTo, Return,
    ReturnBody,
};
use std::alloc::AllocError;
use std::fmt::Write;

/// A message, without who sent it.
pub fn write_message(text: &mut String, message: &Message) -> Result<(), AllocError> {
    match message {
        Message::Plain(plain) => write_plain(text, plain),
        Message::Unimplemented(plain) => {
            text.push_str("unimplemented ")?;
            write_plain(text, plain)
        }
    }
}

fn write_plain(text: &mut String, message: &PlainMessage) -> Result<(), AllocError> {
    match message {
        PlainMessage::Abort(exception) => {
            text.push_str("abort ")?;
            write_exception(text, exception)
        }
        PlainMessage::Bootstrap(question) => {
            write_numbered(text, "bootstrap", u64::from(question.0))
        }
        PlainMessage::Call(call) => write_call(text, call),
        PlainMessage::Return(said) => write_return(text, said),
        PlainMessage::Finish(finish) => {
            write_numbered(text, "finish", u64::from(finish.question.0))?;
            write_flag(text, finish.release_result_caps)
        }
        PlainMessage::Resolve(resolve) => write_resolve(text, resolve),
        PlainMessage::Release(release) => {
            write!(text, "release {} by {}", release.export.0, release.count)
        }
        PlainMessage::Disembargo(disembargo) => write_disembargo(text, *disembargo),
        PlainMessage::Other(number) => write_numbered(text, "other", u64::from(*number)),
    }
}

fn write_call(text: &mut String, call: &Call) -> Result<(), AllocError> {
    write!(text, "call {} to ", call.question.0)?;
    write_target(text, call.target)?;
    write!(text, ", {}.{} ", call.interface, call.method)?;
    write_payload(text, &call.payload)?;
    write_descriptors(text, &call.descriptors)?;
    write_stamp(text, call.stamp)
}

fn write_return(text: &mut String, said: &Return) -> Result<(), AllocError> {
    write_numbered(text, "return", u64::from(said.answer.0))?;
    write_flag(text, said.release_param_caps)?;
    text.push(' ')?;
    match &said.body {
        ReturnBody::Results(payload, descriptors) => {
            write_payload(text, payload)?;
            write_descriptors(text, descriptors)
        }
        ReturnBody::Exception(exception) => write_exception(text, exception),
        ReturnBody::Canceled => text.push_str("canceled"),
    }
}

fn write_resolve(text: &mut String, resolve: &Resolve) -> Result<(), AllocError> {
    write!(text, "resolve {} ", resolve.promise.0)?;
    match &resolve.to {
        ResolvedTo::Cap(descriptor) => write_descriptor(text, *descriptor),
        ResolvedTo::Exception(exception) => write_exception(text, exception),
    }
}

fn write_disembargo(text: &mut String, disembargo: Disembargo) -> Result<(), AllocError> {
    match disembargo.context {
        DisembargoContext::SenderLoopback(id) => write!(text, "disembargo {} to ", id.0)?,
        DisembargoContext::ReceiverLoopback(id) => write!(text, "disembargo {} back to ", id.0)?,
    }
    write_target(text, disembargo.target)
}
