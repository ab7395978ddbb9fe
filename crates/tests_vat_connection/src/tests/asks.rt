//! What is asked of a vat, as a command or by the call of its name.
use rpc_machine::{CallCommand, Command, Granted, Refusal};
use rpc_msg::{
    CallId, Exception, ExceptionKind, Items, ObjectId, Payload, PromiseId, RefId, TaskId, Text,
};
use std::alloc::Global;
use vat_connection::Connection;
use vat_payloads::contents;

/// A command. A call and an answer say 7 and a word, with these references.
#[derive(Clone, Copy)]
pub(crate) enum Ask {
    Bootstrap,
    Field(CallId),
    Host(ObjectId),
    Call(RefId, &'static [RefId]),
    Answer(TaskId, &'static [RefId]),
    Finish(CallId),
    DropRef(RefId),
    Promise,
    Resolve(PromiseId, RefId),
}

/// A call of a connection. A call says so many sevens and a word, an answer nothing.
#[derive(Clone, Copy)]
pub(crate) enum Named {
    Bootstrap,
    ResultOf(CallId),
    Host(ObjectId),
    Promise,
    Reject(PromiseId),
    Call(RefId, usize, &'static [RefId]),
    Answer(TaskId, &'static [RefId]),
    Finish(CallId),
}

/// The command, if there is memory for it.
pub(crate) fn command_of(alloc: Global, ask: Ask) -> Option<Command> {
    match ask {
        Ask::Bootstrap => Some(Command::Bootstrap),
        Ask::Field(call) => Some(Command::Field(call, Items::new(alloc))),
        Ask::Host(object) => Some(Command::Host(object)),
        Ask::Call(reference, given) => Some(Command::Call(saying(alloc, reference, 1, given)?)),
        Ask::Answer(task, given) => answer_of(alloc, task, given),
        Ask::Finish(call) => Some(Command::Finish(call)),
        Ask::DropRef(reference) => Some(Command::DropRef(reference)),
        Ask::Promise => Some(Command::Promise),
        Ask::Resolve(promise, reference) => Some(Command::Resolve(promise, reference)),
    }
}

fn answer_of(alloc: Global, task: TaskId, given: &[RefId]) -> Option<Command> {
    let (payload, refs) = sevens(alloc, 1, given)?;
    Some(Command::Answer(task, payload, refs))
}

fn saying(alloc: Global, reference: RefId, count: usize, given: &[RefId]) -> Option<CallCommand> {
    let (payload, refs) = sevens(alloc, count, given)?;
    Some(CallCommand {
        reference,
        interface: 1,
        method: 2,
        payload,
        refs,
    })
}

fn sevens(alloc: Global, count: usize, given: &[RefId]) -> Option<(Payload, Items<RefId>)> {
    let mut numbers = Vec::new(alloc);
    for _ in 0..count {
        numbers.push(7).ok()?;
    }
    contents(alloc, &numbers, "seven", given).ok()
}

/// What a command grants; None if there is no memory for it.
pub(crate) fn asks(
    alloc: Global,
    connection: &mut Connection,
    ask: Ask,
) -> Option<Result<Granted, Refusal>> {
    let command = command_of(alloc, ask)?;
    match connection.command(command) {
        Ok(granted) => Some(Ok(granted)),
        Err(refused) => Some(Err(refused.refusal)),
    }
}

/// What a call grants; None if there is no memory for what it takes.
pub(crate) fn calls(
    alloc: Global,
    connection: &mut Connection,
    named: Named,
) -> Option<Result<Granted, Refusal>> {
    match named {
        Named::Bootstrap => Some(of_call(connection.bootstrap())),
        Named::ResultOf(call) => Some(of_reference(connection.result_of(call))),
        Named::Host(object) => Some(of_reference(connection.host(object))),
        Named::Promise => Some(promises(connection)),
        Named::Reject(promise) => rejects(alloc, connection, promise),
        Named::Call(reference, count, given) => {
            let call = saying(alloc, reference, count, given)?;
            Some(makes_call(connection, call))
        }
        Named::Answer(task, given) => answers(alloc, connection, task, given),
        Named::Finish(call) => Some(of_nothing(connection.finish(call))),
    }
}

fn of_call(answer: Result<CallId, Refusal>) -> Result<Granted, Refusal> {
    match answer {
        Ok(call) => Ok(Granted::Call(call)),
        Err(refusal) => Err(refusal),
    }
}

fn of_reference(answer: Result<RefId, Refusal>) -> Result<Granted, Refusal> {
    match answer {
        Ok(reference) => Ok(Granted::Reference(reference)),
        Err(refusal) => Err(refusal),
    }
}

fn of_nothing(answer: Result<(), Refusal>) -> Result<Granted, Refusal> {
    match answer {
        Ok(()) => Ok(Granted::Done),
        Err(refusal) => Err(refusal),
    }
}

fn promises(connection: &mut Connection) -> Result<Granted, Refusal> {
    match connection.promise() {
        Ok((promise, reference)) => Ok(Granted::Promise(promise, reference)),
        Err(refusal) => Err(refusal),
    }
}

fn rejects(
    alloc: Global,
    connection: &mut Connection,
    promise: PromiseId,
) -> Option<Result<Granted, Refusal>> {
    let reason = Text::new(alloc, "gone").ok()?;
    let exception = Exception {
        kind: ExceptionKind::Failed,
        reason,
    };
    match connection.reject(promise, exception) {
        Ok(()) => Some(Ok(Granted::Done)),
        Err(refused) => Some(Err(refused.refusal)),
    }
}

fn makes_call(connection: &mut Connection, call: CallCommand) -> Result<Granted, Refusal> {
    match connection.call(call) {
        Ok(call) => Ok(Granted::Call(call)),
        Err(refused) => Err(refused.refusal),
    }
}

fn answers(
    alloc: Global,
    connection: &mut Connection,
    task: TaskId,
    given: &[RefId],
) -> Option<Result<Granted, Refusal>> {
    let (payload, refs) = contents(alloc, &[], "", given).ok()?;
    match connection.answer(task, payload, refs) {
        Ok(()) => Some(Ok(Granted::Done)),
        Err(refused) => Some(Err(refused.refusal)),
    }
}
