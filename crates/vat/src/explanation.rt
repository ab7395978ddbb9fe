ghost use Rattle.std.specs.Prelude.{◌≡◌, ◌∷◌};
ghost use Rattle.vat.specs.Explaining.{call_of, missing, number_in, promise_of, refs_of, task_of};
ghost use Rattle.rpc_machine.specs.declared.command.Command.TheVariants as command;

use rpc_machine::{CallCommand, Command, Refusal};
use rpc_msg::RefId;
use std::fmt;
use thiserror::Error;
use vat_host::{Core, Refused};

/// A refusal with the number of the reference, call, task or promise that it speaks of. Its text has both.
#[derive(Clone, Copy, Debug, PartialEq, Eq, Drop, Error)]
pub struct Explained {
    pub refusal: Refusal,
    pub number: Option<u64>,
}

impl fmt::Display for Explained {
    fn fmt<W: fmt::Write>(&self, f: &mut fmt::Formatter<W>) -> fmt::Result {
        match self.number {
            Some(number) => write!(f, "{}: {}", self.refusal, number),
            None => write!(f, "{}", self.refusal),
        }
    }
}

/// Why a command was refused, by the core that refused it: the refusal, with the first reference of the command that is not
/// there, or with its call, task or promise, if it speaks of one. The command stays with the caller.
pub fn explain(core: &Core, refused: &Refused<Command>) -> Explained
    ensures refusal { result.refusal ≡ refused.now.refusal }
    ensures number { result.number ≡ number_in core.now refused.now.refusal refused.now.back }
{
    let number = match refused.refusal {
        Refusal::UnknownRef => missing_of(core, &refused.back),
        Refusal::UnknownCall => call_of(&refused.back),
        Refusal::UnknownTask => task_of(&refused.back),
        Refusal::UnknownPromise => promise_of(&refused.back),
        Refusal::Cycle => promise_of(&refused.back),
        _ => None,
    };
    Explained {
        refusal: refused.refusal,
        number,
    }
}

/// Why a call was refused, by the core that refused it: the refusal, with the first of its references that is not there.
pub fn explain_call(core: &Core, refused: &Refused<CallCommand>) -> Explained
    ensures refusal { result.refusal ≡ refused.now.refusal }
    ensures number { result.number ≡ number_in core.now refused.now.refusal (command.Call refused.now.back) }
{
    let number = match refused.refusal {
        Refusal::UnknownRef => missing_of_call(core, &refused.back),
        _ => None,
    };
    Explained {
        refusal: refused.refusal,
        number,
    }
}

// The first reference of a command that is not there.
fn missing_of(core: &Core, command: &Command) -> Option<u64>
    ensures { result ≡ missing core.now (refs_of command.now) }
{
    match command {
        Command::CloneRef(reference) => missing(core, &[*reference]),
        Command::DropRef(reference) => missing(core, &[*reference]),
        Command::Call(call) => missing_of_call(core, call),
        Command::Resolve(_, reference) => missing(core, &[*reference]),
        Command::Answer(_, _, refs) => missing(core, refs),
        Command::Advance(reference) => missing(core, &[*reference]),
        _ => None,
    }
}

fn missing_of_call(core: &Core, call: &CallCommand) -> Option<u64>
    ensures { result ≡ missing core.now (call.now.reference ∷ call.now.refs) }
{
    match core.calls_made(call.reference) {
        Some(_) => missing(core, &call.refs),
        None => Some(call.reference.0),
    }
}

// The first of these references that is not there.
fn missing(core: &Core, refs: &[RefId]) -> Option<u64>
    ensures { result ≡ missing core.now refs.now }
{
    for reference in refs {
        match core.calls_made(*reference) {
            Some(_) => {}
            None => return Some(reference.0),
        }
    }
    None
}

// The call, the task and the promise that a command names.
fn call_of(command: &Command) -> Option<u64>
    ensures { result ≡ call_of command.now }
{
    match command {
        Command::Field(call, _) => Some(call.0),
        Command::Finish(call) => Some(call.0),
        _ => None,
    }
}

fn task_of(command: &Command) -> Option<u64>
    ensures { result ≡ task_of command.now }
{
    match command {
        Command::Answer(task, _, _) => Some(task.0),
        Command::Fail(task, _) => Some(task.0),
        _ => None,
    }
}

fn promise_of(command: &Command) -> Option<u64>
    ensures { result ≡ promise_of command.now }
{
    match command {
        Command::Resolve(promise, _) => Some(promise.0),
        Command::Reject(promise, _) => Some(promise.0),
        _ => None,
    }
}
