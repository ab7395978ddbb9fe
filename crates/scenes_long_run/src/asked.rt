//! What the vats were asked, to be asked once more.

use anyhow::{Result, bail};
use rpc_machine::{CallCommand, Command};
use rpc_msg::Vat;
use std::alloc::Global;
use std::collections::VecDeque;

/// The commands of each vat, the oldest first.
#[derive(Drop)]
pub struct Asked {
    a: VecDeque<Command>,
    b: VecDeque<Command>,
    alloc: Global,
}

impl Asked {
    pub fn new(alloc: Global) -> Asked {
        Asked {
            a: VecDeque::new(alloc),
            b: VecDeque::new(alloc),
            alloc,
        }
    }

    /// Keeps a copy of a vat's next command.
    pub fn keep(&mut self, vat: Vat, command: &Command) -> Result<()> {
        let copied = copy(self.alloc, command)?;
        self.of(vat).push_back(copied)?;
        Ok(())
    }

    /// The oldest command of a vat that was not given yet.
    pub fn next(&mut self, vat: Vat) -> Option<Command> {
        self.of(vat).pop_front()
    }

    fn of(&mut self, vat: Vat) -> &mut VecDeque<Command> {
        match vat {
            Vat::A => &mut self.a,
            Vat::B => &mut self.b,
        }
    }
}

fn copy(alloc: Global, command: &Command) -> Result<Command> {
    let copied = match command {
        Command::Host(object) => Command::Host(*object),
        Command::CloneRef(reference) => Command::CloneRef(*reference),
        Command::DropRef(reference) => Command::DropRef(*reference),
        Command::Bootstrap => Command::Bootstrap,
        Command::Call(call) => Command::Call(copy_call(alloc, call)?),
        Command::Field(call, path) => Command::Field(*call, path.copy(alloc)?),
        Command::Promise => Command::Promise,
        Command::Resolve(promise, to) => Command::Resolve(*promise, *to),
        Command::Reject(promise, reason) => Command::Reject(*promise, reason.copy(alloc)?),
        Command::Answer(task, payload, refs) => {
            Command::Answer(*task, payload.copy(alloc)?, refs.copy(alloc)?)
        }
        Command::Fail(task, reason) => Command::Fail(*task, reason.copy(alloc)?),
        Command::Finish(call) => Command::Finish(*call),
        Command::Advance(reference) => Command::Advance(*reference),
        Command::Shut(number) => bail!("a vat was shut: {number}"),
    };
    Ok(copied)
}

fn copy_call(alloc: Global, call: &CallCommand) -> Result<CallCommand> {
    Ok(CallCommand {
        reference: call.reference,
        interface: call.interface,
        method: call.method,
        payload: call.payload.copy(alloc)?,
        refs: call.refs.copy(alloc)?,
    })
}
