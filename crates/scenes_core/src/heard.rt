//! Messages of a peer that needn't be honest, in the words in which messages are told (`told.rt`). A payload is null where no
//! capability is named, and else a struct whose only pointer is capability 0, whose descriptor is the first; the others go
//! with it and stand nowhere in it.

use anyhow::{Result, bail};
use rpc_msg::{
    Call, Descriptor, Disembargo, DisembargoContext, EmbargoId, Exception, ExceptionKind, ExportId,
    Finish, Items, Message, Path, Payload, PlainMessage, QuestionId, RefId, Release, Resolve,
    ResolvedTo, Return, ReturnBody, Stamp, Target, Text, Vat,
};
use std::alloc::Global;

/// A segment of two words: a struct with one pointer, and that to capability 0.
const GIVEN: [u8; 24] = [
    0, 0, 0, 0, 2, 0, 0, 0, 0, 0, 0, 0, 0, 0, 1, 0, 3, 0, 0, 0, 0, 0, 0, 0,
];

pub fn message(alloc: Global, text: &str) -> Result<Message> {
    let mut words = Vec::new(alloc);
    for word in text.split_whitespace() {
        words.push(word)?;
    }
    said(alloc, &words)
}

fn said(alloc: Global, words: &[&str]) -> Result<Message> {
    match words {
        ["unimplemented", words @ ..] => Ok(Message::Unimplemented(plain(alloc, words)?)),
        words => Ok(Message::Plain(plain(alloc, words)?)),
    }
}

fn plain(alloc: Global, words: &[&str]) -> Result<PlainMessage> {
    match words {
        ["abort"] => Ok(PlainMessage::Abort(exception(alloc)?)),
        ["call", id, "to", kind, number, caps @ ..] => {
            let (id, target) = (id.parse()?, target(kind, number)?);
            let (payload, descriptors) = contents(alloc, caps)?;
            Ok(PlainMessage::Call(call(id, target, payload, descriptors)))
        }
        ["return", id, "release", body @ ..] => returned(alloc, id, true, body),
        ["return", id, body @ ..] => returned(alloc, id, false, body),
        ["resolve", id, to @ ..] => {
            let promise = ExportId(id.parse()?);
            let to = resolved(alloc, to)?;
            Ok(PlainMessage::Resolve(Resolve { promise, to }))
        }
        _ => small(words),
    }
}

/// A message that takes no memory.
fn small(words: &[&str]) -> Result<PlainMessage> {
    match words {
        ["bootstrap", id] => Ok(PlainMessage::Bootstrap(QuestionId(id.parse()?))),
        ["finish", id] => Ok(PlainMessage::Finish(Finish {
            question: QuestionId(id.parse()?),
            release_result_caps: false,
        })),
        ["release", id, "by", count] => Ok(PlainMessage::Release(Release {
            export: ExportId(id.parse()?),
            count: count.parse()?,
        })),
        ["disembargo", id, "to", kind, number] => Ok(PlainMessage::Disembargo(Disembargo {
            target: target(kind, number)?,
            context: DisembargoContext::SenderLoopback(EmbargoId(id.parse()?)),
        })),
        ["disembargo", id, "back", "to", kind, number] => {
            Ok(PlainMessage::Disembargo(Disembargo {
                target: target(kind, number)?,
                context: DisembargoContext::ReceiverLoopback(EmbargoId(id.parse()?)),
            }))
        }
        ["other", number] => Ok(PlainMessage::Other(number.parse()?)),
        _ => bail!("no message"),
    }
}

fn target(kind: &str, number: &str) -> Result<Target> {
    let number: u32 = number.parse()?;
    match kind {
        "import" => Ok(Target::ImportedCap(ExportId(number))),
        "answer" => Ok(Target::PromisedAnswer(QuestionId(number), Path::root())),
        _ => bail!("no target"),
    }
}

fn call(id: u32, target: Target, payload: Payload, descriptors: Items<Descriptor>) -> Call {
    Call {
        question: QuestionId(id),
        target,
        interface: 7,
        method: 1,
        payload,
        descriptors,
        stamp: Stamp {
            vat: Vat::A,
            reference: RefId(0),
            index: 0,
        },
    }
}

fn returned(alloc: Global, id: &str, releases: bool, words: &[&str]) -> Result<PlainMessage> {
    let answer = QuestionId(id.parse()?);
    let body = match words {
        ["canceled"] => ReturnBody::Canceled,
        caps => {
            let (payload, descriptors) = contents(alloc, caps)?;
            ReturnBody::Results(payload, descriptors)
        }
    };
    Ok(PlainMessage::Return(Return {
        answer,
        release_param_caps: releases,
        body,
    }))
}

fn resolved(alloc: Global, words: &[&str]) -> Result<ResolvedTo> {
    match words {
        ["exception"] => Ok(ResolvedTo::Exception(exception(alloc)?)),
        words => Ok(ResolvedTo::Cap(descriptor_of(words)?)),
    }
}

/// The payload with its descriptors; `null none` is the null payload with a descriptor more than it may have.
fn contents(alloc: Global, words: &[&str]) -> Result<(Payload, Items<Descriptor>)> {
    match words {
        [] => Ok((Payload::null(alloc)?, Items::new(alloc))),
        ["null", "none"] => {
            let descriptors = Vec::from_slice(alloc, &[Descriptor::None])?;
            Ok((Payload::null(alloc)?, Items::from_vec(descriptors)))
        }
        words => {
            let count = u32::try_from(words.len() / 2)?;
            let payload = Payload::read(alloc, &GIVEN, count)?;
            let descriptors = descriptors(alloc, words)?;
            Ok((payload, Items::from_vec(descriptors)))
        }
    }
}

fn descriptors(alloc: Global, words: &[&str]) -> Result<Vec<Descriptor>> {
    let mut read = Vec::new(alloc);
    for pair in words.chunks(2) {
        read.push(descriptor_of(pair)?)?;
    }
    Ok(read)
}

fn descriptor_of(words: &[&str]) -> Result<Descriptor> {
    match words {
        [kind, number] => descriptor(kind, number),
        _ => bail!("no descriptor"),
    }
}

fn descriptor(kind: &str, number: &str) -> Result<Descriptor> {
    let number: u32 = number.parse()?;
    match kind {
        "senderHosted" => Ok(Descriptor::SenderHosted(ExportId(number))),
        "senderPromise" => Ok(Descriptor::SenderPromise(ExportId(number))),
        "receiverHosted" => Ok(Descriptor::ReceiverHosted(ExportId(number))),
        "receiverAnswer" => Ok(Descriptor::ReceiverAnswer(QuestionId(number), Path::root())),
        _ => bail!("no descriptor"),
    }
}

fn exception(alloc: Global) -> Result<Exception> {
    Ok(Exception {
        kind: ExceptionKind::Failed,
        reason: Text::new(alloc, "x")?,
    })
}
