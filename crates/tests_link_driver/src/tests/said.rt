//! The messages of frames that are handed to a seat, as a peer has them.
use crate::tests::commands::failed;
use rpc_msg::{
    Call, Descriptor, Disembargo, DisembargoContext, ExportId, Finish, Items, Memory, Message,
    Path, Payload, PlainMessage, QuestionId, RefId, Release, Resolve, ResolvedTo, Return,
    ReturnBody, Stamp, Target, Vat,
};
use std::alloc::Global;

/// A message of a peer.
#[derive(Clone, Copy, Drop)]
pub(super) enum Said {
    Bootstrap(u32),
    /// A Return that says canceled.
    Canceled(u32),
    /// A Return with null results.
    Null(u32),
    /// A Call to an export that is not there.
    Call(u32),
    /// A Call without contents to the bootstrap object, whose question is 0, or to what a question gives.
    CallBoot(u32),
    CallOf(u32, u32),
    /// A Call to the bootstrap object with one capability: an object of the sender, or a promise.
    GiveObject(u32, u32),
    GivePromise(u32, u32),
    /// One whose payload has none, with a descriptor.
    GiveNone(u32),
    Finish(u32),
    Release(u32, u32),
    /// A Resolve to an exception.
    Broken(u32),
    Disembargo(DisembargoContext),
    Unimplemented,
    Abort,
}

/// The message.
pub(super) fn message(alloc: Global, said: Said) -> Result<Message, Memory> {
    match said {
        Said::Call(question) => bare_call(alloc, question, Target::ImportedCap(ExportId(0))),
        Said::CallBoot(question) => bare_call(alloc, question, at_root(0)),
        Said::CallOf(question, of) => bare_call(alloc, question, at_root(of)),
        Said::GiveObject(question, export) => {
            gift(alloc, question, Descriptor::SenderHosted(ExportId(export)))
        }
        Said::GivePromise(question, export) => {
            gift(alloc, question, Descriptor::SenderPromise(ExportId(export)))
        }
        Said::GiveNone(question) => gift(alloc, question, Descriptor::None),
        Said::Broken(promise) => broken(alloc, promise),
        Said::Null(answer) => null_results(alloc, answer),
        Said::Abort => abort(alloc),
        other => Ok(bare(other)),
    }
}

/// Without contents.
fn bare(said: Said) -> Message {
    match said {
        Said::Bootstrap(question) => Message::Plain(PlainMessage::Bootstrap(QuestionId(question))),
        Said::Finish(question) => Message::Plain(finish(question)),
        Said::Canceled(answer) => returned(answer, ReturnBody::Canceled),
        Said::Release(export, count) => Message::Plain(PlainMessage::Release(Release {
            export: ExportId(export),
            count,
        })),
        Said::Disembargo(context) => Message::Plain(PlainMessage::Disembargo(Disembargo {
            target: Target::ImportedCap(ExportId(0)),
            context,
        })),
        _ => Message::Unimplemented(finish(0)),
    }
}

fn finish(question: u32) -> PlainMessage {
    PlainMessage::Finish(Finish {
        question: QuestionId(question),
        release_result_caps: false,
    })
}

fn returned(answer: u32, body: ReturnBody) -> Message {
    Message::Plain(PlainMessage::Return(Return {
        answer: QuestionId(answer),
        release_param_caps: false,
        body,
    }))
}

fn null_results(alloc: Global, answer: u32) -> Result<Message, Memory> {
    let payload = Payload::null(alloc)?;
    Ok(returned(answer, ReturnBody::Results(payload, Items::new(alloc))))
}

fn broken(alloc: Global, promise: u32) -> Result<Message, Memory> {
    let exception = failed(alloc)?;
    Ok(Message::Plain(PlainMessage::Resolve(Resolve {
        promise: ExportId(promise),
        to: ResolvedTo::Exception(exception),
    })))
}

fn abort(alloc: Global) -> Result<Message, Memory> {
    let exception = failed(alloc)?;
    Ok(Message::Plain(PlainMessage::Abort(exception)))
}

fn at_root(question: u32) -> Target {
    Target::PromisedAnswer(QuestionId(question), Path::root())
}

fn call(
    question: u32,
    target: Target,
    payload: Payload,
    descriptors: Items<Descriptor>,
) -> Message {
    Message::Plain(PlainMessage::Call(Call {
        question: QuestionId(question),
        target,
        interface: 7,
        method: 1,
        payload,
        descriptors,
        stamp: Stamp {
            vat: Vat::A,
            reference: RefId(0),
            index: 0,
        },
    }))
}

fn bare_call(alloc: Global, question: u32, target: Target) -> Result<Message, Memory> {
    let payload = Payload::null(alloc)?;
    Ok(call(question, target, payload, Items::new(alloc)))
}

/// The payload is one capability; that of no capability is null.
fn gift(alloc: Global, question: u32, given: Descriptor) -> Result<Message, Memory> {
    let payload = if matches!(given, Descriptor::None) {
        Payload::null(alloc)?
    } else {
        Payload::root_capability(alloc)?
    };
    match Items::one(alloc, given) {
        Ok(descriptors) => Ok(call(question, at_root(0), payload, descriptors)),
        Err(_) => Err(Memory),
    }
}
