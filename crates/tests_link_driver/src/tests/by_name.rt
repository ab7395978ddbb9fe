//! The acts of an application by the calls of their names.
ghost use Rattle.link_rings.specs.Ends.{IsSameEnd};

use crate::tests::acts::Act;
use crate::tests::commands::{Contents, call, capability, failed, null};
use link_driver::{Refused, VatEnd};
use rpc_machine::{CallCommand, Effects, Refusal};
use rpc_msg::{CallId, Exception, Items, Memory, ObjectId, PromiseId, RefId, TaskId};
use std::alloc::Global;

/// Asks an end for it, if it is no turn: gives what follows, if it says.
pub(super) fn ask<V>(
    alloc: Global,
    end: &mut VatEnd<V>,
    act: Act,
) -> Result<Option<Effects>, Refusal>
    ensures { IsSameEnd end.old.end end.new.end }
{
    match act {
        Act::Host(object) => nothing(end.host(ObjectId(object))),
        Act::CloneRef(reference) => nothing(end.clone_ref(RefId(reference))),
        Act::Field(call) => match end.field(CallId(call), Items::new(alloc)) {
            Ok(_) => Ok(None),
            Err(refused) => Err(refused.refusal),
        },
        Act::Promise => match end.promise() {
            Ok(_) => Ok(None),
            Err(refusal) => Err(refusal),
        },
        other => ask_bare(alloc, end, other),
    }
}

fn nothing(made: Result<RefId, Refusal>) -> Result<Option<Effects>, Refusal> {
    match made {
        Ok(_) => Ok(None),
        Err(refusal) => Err(refusal),
    }
}

fn some(done: Result<Effects, Refusal>) -> Result<Option<Effects>, Refusal> {
    match done {
        Ok(effects) => Ok(Some(effects)),
        Err(refusal) => Err(refusal),
    }
}

// Without contents.
fn ask_bare<V>(alloc: Global, end: &mut VatEnd<V>, act: Act) -> Result<Option<Effects>, Refusal>
    ensures { IsSameEnd end.old.end end.new.end }
{
    match act {
        Act::Bootstrap => match end.bootstrap() {
            Ok((_, effects)) => Ok(Some(effects)),
            Err(refusal) => Err(refusal),
        },
        Act::Advance(reference) => match end.advance(RefId(reference)) {
            Ok((_, effects)) => Ok(Some(effects)),
            Err(refusal) => Err(refusal),
        },
        Act::Resolve(promise, to) => some(end.resolve(PromiseId(promise), RefId(to))),
        Act::Finish(call) => some(end.finish(CallId(call))),
        Act::LetGo(reference) => some(end.drop_ref(RefId(reference))),
        Act::Shut(number) => Ok(Some(end.shut(number))),
        other => ask_with(alloc, end, other),
    }
}

fn ask_with<V>(alloc: Global, end: &mut VatEnd<V>, act: Act) -> Result<Option<Effects>, Refusal>
    ensures { IsSameEnd end.old.end end.new.end }
{
    match act {
        Act::Call(to, method) => match null(alloc) {
            Ok(contents) => make(end, call(to, method, contents)),
            Err(Memory) => Err(Refusal::Memory),
        },
        Act::Give(to, method, given) => match capability(alloc, given) {
            Ok(contents) => make(end, call(to, method, contents)),
            Err(Memory) => Err(Refusal::Memory),
        },
        Act::Answer(task) => answer(end, task, null(alloc)),
        Act::AnswerBy(task, given) => answer(end, task, capability(alloc, given)),
        Act::Reject(promise) => reject(end, promise, failed(alloc)),
        Act::Fail(task) => fail(end, task, failed(alloc)),
        _ => Err(Refusal::UnknownTask),
    }
}

fn make<V>(end: &mut VatEnd<V>, call: CallCommand) -> Result<Option<Effects>, Refusal>
    ensures { IsSameEnd end.old.end end.new.end }
{
    match end.call(call) {
        Ok((_, effects)) => Ok(Some(effects)),
        Err(refused) => Err(refused.refusal),
    }
}

fn answer<V>(
    end: &mut VatEnd<V>,
    task: u64,
    contents: Result<Contents, Memory>,
) -> Result<Option<Effects>, Refusal>
    ensures { IsSameEnd end.old.end end.new.end }
{
    let (payload, refs) = contents?;
    match end.answer(TaskId(task), payload, refs) {
        Ok(effects) => Ok(Some(effects)),
        Err(refused) => Err(refused.refusal),
    }
}

fn reject<V>(
    end: &mut VatEnd<V>,
    promise: u64,
    exception: Result<Exception, Memory>,
) -> Result<Option<Effects>, Refusal>
    ensures { IsSameEnd end.old.end end.new.end }
{
    match end.reject(PromiseId(promise), exception?) {
        Ok(effects) => Ok(Some(effects)),
        Err(refused) => Err(refused.refusal),
    }
}

fn fail<V>(
    end: &mut VatEnd<V>,
    task: u64,
    exception: Result<Exception, Memory>,
) -> Result<Option<Effects>, Refusal>
    ensures { IsSameEnd end.old.end end.new.end }
{
    match end.fail(TaskId(task), exception?) {
        Ok(effects) => Ok(Some(effects)),
        Err(refused) => Err(refused.refusal),
    }
}
