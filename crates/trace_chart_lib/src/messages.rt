use crate::labels::{write_exception, write_path, write_stamp};
use crate::questions::Asked;
use rpc_msg::{
    Call, Descriptor, Disembargo, DisembargoContext, Finish, Items, Message, PlainMessage, Resolve,
    ResolvedTo, Return, ReturnBody, Target,
};
use std::alloc::{AllocError, Global};
use std::fmt::Write;

/// What is said of a message, if the question is known that it asks, answers or finishes. Capabilities and flags stand
/// before what may be long.
pub(crate) fn message_label(
    alloc: Global,
    message: &Message,
    asked: Option<Asked>,
) -> Result<String, AllocError> {
    let mut text = String::new(alloc);
    match message {
        Message::Plain(plain) => write_plain(&mut text, plain, asked)?,
        Message::Unimplemented(plain) => {
            text.push_str("Unimplemented: ")?;
            write_plain(&mut text, plain, asked)?;
        }
    }
    Ok(text)
}

fn write_plain(
    text: &mut String,
    message: &PlainMessage,
    asked: Option<Asked>,
) -> Result<(), AllocError> {
    match message {
        PlainMessage::Abort(exception) => {
            text.push_str("Abort, ")?;
            write_exception(text, exception)
        }
        PlainMessage::Bootstrap(question) => {
            write_bootstrap(text, asked)?;
            write!(text, " (question {})", question.0)
        }
        PlainMessage::Call(call) => write_call(text, call),
        PlainMessage::Return(answer) => write_return(text, answer, asked),
        PlainMessage::Finish(finish) => write_finish(text, finish, asked),
        PlainMessage::Resolve(resolve) => write_resolve(text, resolve),
        PlainMessage::Release(release) => {
            write!(
                text,
                "Release, export {} by {}",
                release.export.0, release.count
            )
        }
        PlainMessage::Disembargo(disembargo) => write_disembargo(text, disembargo),
        PlainMessage::Other(number) => write!(text, "message {number}"),
    }
}

/// A Bootstrap, by the number that its application has for it.
fn write_bootstrap(text: &mut String, asked: Option<Asked>) -> Result<(), AllocError> {
    text.push_str("Bootstrap")?;
    match asked {
        Some(Asked::Bootstrap(Some(call))) => write!(text, ", call {}", call.0),
        _ => Ok(()),
    }
}

/// What a Return or a Finish is of.
fn write_asked(text: &mut String, asked: Option<Asked>) -> Result<(), AllocError> {
    match &asked {
        Some(Asked::Call(stamp)) => {
            text.push_str(" of ")?;
            write_stamp(text, stamp)
        }
        Some(Asked::Bootstrap(_)) => {
            text.push_str(" of ")?;
            write_bootstrap(text, asked)
        }
        None => Ok(()),
    }
}

fn write_call(text: &mut String, call: &Call) -> Result<(), AllocError> {
    text.push_str("Call ")?;
    write_stamp(text, &call.stamp)?;
    write!(text, " (question {})", call.question.0)?;
    write_descriptors(text, &call.descriptors)?;
    text.push_str(", to ")?;
    write_target(text, &call.target)
}

fn write_return(
    text: &mut String,
    answer: &Return,
    asked: Option<Asked>,
) -> Result<(), AllocError> {
    text.push_str("Return")?;
    write_asked(text, asked)?;
    write!(text, " (answer {}", answer.answer.0)?;
    write_flag(text, answer.release_param_caps)?;
    match &answer.body {
        ReturnBody::Results(_, descriptors) => {
            write_descriptors(text, descriptors)?;
            text.push_str(": results")
        }
        ReturnBody::Exception(exception) => {
            text.push_str(": ")?;
            write_exception(text, exception)
        }
        ReturnBody::Canceled => text.push_str(": canceled"),
    }
}

fn write_finish(
    text: &mut String,
    finish: &Finish,
    asked: Option<Asked>,
) -> Result<(), AllocError> {
    text.push_str("Finish")?;
    write_asked(text, asked)?;
    write!(text, " (question {}", finish.question.0)?;
    write_flag(text, finish.release_result_caps)
}

/// The capabilities of a payload, as the wire has them; nothing if there are none.
fn write_descriptors(text: &mut String, descriptors: &Items<Descriptor>) -> Result<(), AllocError> {
    for (place, descriptor) in descriptors.iter().enumerate() {
        text.push_str(if place == 0 { " with " } else { ", " })?;
        write_descriptor(text, descriptor)?;
    }
    Ok(())
}

fn write_resolve(text: &mut String, resolve: &Resolve) -> Result<(), AllocError> {
    write!(text, "Resolve, promise {}: ", resolve.promise.0)?;
    match &resolve.to {
        ResolvedTo::Cap(descriptor) => write_descriptor(text, descriptor),
        ResolvedTo::Exception(exception) => write_exception(text, exception),
    }
}

fn write_disembargo(text: &mut String, disembargo: &Disembargo) -> Result<(), AllocError> {
    match disembargo.context {
        DisembargoContext::SenderLoopback(id) => write!(text, "Disembargo {}, to ", id.0)?,
        DisembargoContext::ReceiverLoopback(id) => write!(text, "Disembargo {} back, to ", id.0)?,
    }
    write_target(text, &disembargo.target)
}

fn write_flag(text: &mut String, releases: bool) -> Result<(), AllocError> {
    text.push_str(if releases { ", releases)" } else { ")" })
}

fn write_target(text: &mut String, target: &Target) -> Result<(), AllocError> {
    match target {
        Target::ImportedCap(export) => write!(text, "export {}", export.0),
        Target::PromisedAnswer(question, path) => {
            write!(text, "answer {}", question.0)?;
            write_path(text, path)
        }
    }
}

fn write_descriptor(text: &mut String, descriptor: &Descriptor) -> Result<(), AllocError> {
    match descriptor {
        Descriptor::None => text.push_str("none"),
        Descriptor::SenderHosted(export) => write!(text, "senderHosted {}", export.0),
        Descriptor::SenderPromise(export) => write!(text, "senderPromise {}", export.0),
        Descriptor::ReceiverHosted(export) => write!(text, "receiverHosted {}", export.0),
        Descriptor::ReceiverAnswer(question, path) => {
            write!(text, "receiverAnswer {}", question.0)?;
            write_path(text, path)
        }
    }
}
