//! Commands and events in memory of their own.
ghost use Rattle.std.specs.Prelude.{◌≡◌, IfOk};
ghost use Rattle.rpc_machine.specs.declared.command.Command.TheVariants as command;

use rpc_machine::{CallCommand, Command};
use rpc_msg::{Items, Memory, Payload, RefId, TaskId};
use std::alloc::Global;
use vat_host::Event;

/// The same command, in memory of its own.
pub(crate) fn copy_command(alloc: Global, command: &Command) -> Result<Command, Memory>
    ensures { IfOk result (λ copy. copy ≡ command.now) }
{
    match command {
        Command::Host(object) => Ok(Command::Host(*object)),
        Command::CloneRef(reference) => Ok(Command::CloneRef(*reference)),
        Command::DropRef(reference) => Ok(Command::DropRef(*reference)),
        Command::Bootstrap => Ok(Command::Bootstrap),
        Command::Call(call) => {
            let call = copy_call(alloc, call)?;
            Ok(Command::Call(call))
        }
        Command::Field(call, path) => {
            let path = path.copy(alloc)?;
            Ok(Command::Field(*call, path))
        }
        Command::Promise => Ok(Command::Promise),
        Command::Resolve(promise, reference) => Ok(Command::Resolve(*promise, *reference)),
        Command::Reject(promise, exception) => {
            let exception = exception.copy(alloc)?;
            Ok(Command::Reject(*promise, exception))
        }
        Command::Answer(task, payload, refs) => copy_answer(alloc, *task, payload, refs),
        Command::Fail(task, exception) => {
            let exception = exception.copy(alloc)?;
            Ok(Command::Fail(*task, exception))
        }
        Command::Finish(call) => Ok(Command::Finish(*call)),
        Command::Advance(reference) => Ok(Command::Advance(*reference)),
        Command::Shut(number) => Ok(Command::Shut(*number)),
    }
}

fn copy_call(alloc: Global, call: &CallCommand) -> Result<CallCommand, Memory>
    ensures { IfOk result (λ copy. copy ≡ call.now) }
{
    let payload = call.payload.copy(alloc)?;
    let refs = call.refs.copy(alloc)?;
    Ok(CallCommand {
        reference: call.reference,
        interface: call.interface,
        method: call.method,
        payload,
        refs,
    })
}

fn copy_answer(
    alloc: Global,
    task: TaskId,
    payload: &Payload,
    refs: &Items<RefId>,
) -> Result<Command, Memory>
    ensures { IfOk result (λ copy. copy ≡ command.Answer task payload.now refs.now) }
{
    let payload = payload.copy(alloc)?;
    let refs = refs.copy(alloc)?;
    Ok(Command::Answer(task, payload, refs))
}

/// The same event, in memory of its own.
pub(crate) fn copy_event(alloc: Global, event: &Event) -> Result<Event, Memory>
    ensures { IfOk result (λ copy. copy ≡ event.now) }
{
    match event {
        Event::Served(delivery) => {
            let delivery = delivery.copy(alloc)?;
            Ok(Event::Served(delivery))
        }
        Event::Ended(ended) => {
            let ended = ended.copy(alloc)?;
            Ok(Event::Ended(ended))
        }
        Event::Resolved(place) => Ok(Event::Resolved(*place)),
        Event::Lifted(reference) => Ok(Event::Lifted(*reference)),
        Event::Cancelled(task) => Ok(Event::Cancelled(*task)),
        Event::Released(object) => Ok(Event::Released(*object)),
        Event::Down(number, reason) => {
            let reason = reason.copy(alloc)?;
            Ok(Event::Down(*number, reason))
        }
    }
}
