//! The acts of an application as commands, and what they carry.
use crate::tests::acts::Act;
use rpc_machine::{CallCommand, Command};
use rpc_msg::{
    CallId, Exception, ExceptionKind, Items, Memory, ObjectId, Payload, PromiseId, RefId, TaskId,
    Text,
};
use std::alloc::Global;

/// What a call or an answer carries.
pub(super) type Contents = (Payload, Items<RefId>);

/// The command that an act is, and none for a turn; made again if one allocation was refused.
pub(super) fn command(alloc: Global, act: Act) -> Result<Option<Command>, Memory> {
    match made(alloc, act) {
        Err(Memory) => made(alloc, act),
        made => made,
    }
}

fn made(alloc: Global, act: Act) -> Result<Option<Command>, Memory> {
    match act {
        Act::Call(reference, method) => {
            let contents = null(alloc)?;
            Ok(Some(Command::Call(call(reference, method, contents))))
        }
        Act::Give(reference, method, given) => {
            let contents = capability(alloc, given)?;
            Ok(Some(Command::Call(call(reference, method, contents))))
        }
        Act::Answer(task) => {
            let (payload, refs) = null(alloc)?;
            Ok(Some(Command::Answer(TaskId(task), payload, refs)))
        }
        Act::AnswerBy(task, given) => {
            let (payload, refs) = capability(alloc, given)?;
            Ok(Some(Command::Answer(TaskId(task), payload, refs)))
        }
        Act::Fail(task) => {
            let exception = failed(alloc)?;
            Ok(Some(Command::Fail(TaskId(task), exception)))
        }
        Act::Reject(promise) => {
            let exception = failed(alloc)?;
            Ok(Some(Command::Reject(PromiseId(promise), exception)))
        }
        other => Ok(bare(alloc, other)),
    }
}

/// Without contents.
fn bare(alloc: Global, act: Act) -> Option<Command> {
    match act {
        Act::Bootstrap => Some(Command::Bootstrap),
        Act::Field(call) => Some(Command::Field(CallId(call), Items::new(alloc))),
        Act::Host(object) => Some(Command::Host(ObjectId(object))),
        Act::CloneRef(reference) => Some(Command::CloneRef(RefId(reference))),
        Act::Promise => Some(Command::Promise),
        Act::Resolve(promise, to) => Some(Command::Resolve(PromiseId(promise), RefId(to))),
        Act::Advance(reference) => Some(Command::Advance(RefId(reference))),
        Act::Finish(call) => Some(Command::Finish(CallId(call))),
        Act::LetGo(reference) => Some(Command::DropRef(RefId(reference))),
        Act::Shut(number) => Some(Command::Shut(number)),
        _ => None,
    }
}

pub(super) fn call(reference: u64, method: u16, (payload, refs): Contents) -> CallCommand {
    CallCommand {
        reference: RefId(reference),
        interface: 7,
        method,
        payload,
        refs,
    }
}

pub(super) fn null(alloc: Global) -> Result<Contents, Memory> {
    match Payload::null(alloc) {
        Ok(payload) => Ok((payload, Items::new(alloc))),
        Err(Memory) => Err(Memory),
    }
}

pub(super) fn capability(alloc: Global, given: u64) -> Result<Contents, Memory> {
    let payload = Payload::root_capability(alloc)?;
    match Items::one(alloc, RefId(given)) {
        Ok(refs) => Ok((payload, refs)),
        Err(_) => Err(Memory),
    }
}

pub(super) fn failed(alloc: Global) -> Result<Exception, Memory> {
    match Text::new(alloc, "no") {
        Ok(reason) => Ok(Exception {
            kind: ExceptionKind::Failed,
            reason,
        }),
        Err(Memory) => Err(Memory),
    }
}
