ghost use Rattle.std.specs.Prelude.{◌≡◌, Ok};
ghost use Rattle.script_language.specs.declared.line.LineCommand.TheVariants as said;
ghost use Rattle.script_language.specs.Bindings.{Gives, command_for, references_at};
ghost use Rattle.rpc_msg.specs.Payloads.{null_payload};
ghost use Rattle.script_language.specs.Carried.{script_exception};
ghost use Rattle.rpc_machine.specs.declared.command.Command.TheVariants as command;
ghost use Rattle.rpc_msg.specs.declared.ids.RefId.{RefId};

use crate::carried::{payload_carrying, script_exception};
use crate::fault::GiveFault;
use crate::line::{CallLine, FieldLine, LineCommand};
use crate::name::Name;
use crate::names::VatNames;
use rpc_machine::{CallCommand, Command};
use rpc_msg::{Items, Payload, RefId, TaskId};
use std::alloc::Global;

impl VatNames {
    pub(crate) fn command(
        &self,
        alloc: Global,
        null: &Payload,
        said: &LineCommand,
    ) -> Result<Command, GiveFault>
        requires { null.now ≡ null_payload }
        ensures { Gives (command_for self.now said.now) result }
    {
        match said {
            LineCommand::Host(_, object) => Ok(Command::Host(*object)),
            LineCommand::Bootstrap(_) => Ok(Command::Bootstrap),
            LineCommand::Promise(_, _) => Ok(Command::Promise),
            LineCommand::Field(line) => self.field(alloc, line),
            LineCommand::Call(line) => self.call(alloc, null, line),
            LineCommand::Answer(task, caps) => self.answer(alloc, null, *task, caps),
            LineCommand::Fail(task) => fail(alloc, *task),
            LineCommand::Resolve(promise, name) => self.resolve(*promise, *name),
            LineCommand::Reject(promise) => self.reject(alloc, *promise),
            LineCommand::CloneRef(_, from) => {
                let reference = self.reference_at(*from)?;
                Ok(Command::CloneRef(reference))
            }
            LineCommand::DropRef(name) => {
                let reference = self.reference_at(*name)?;
                Ok(Command::DropRef(reference))
            }
            LineCommand::Finish(call) => {
                let call = self.call_at(*call)?;
                Ok(Command::Finish(call))
            }
            LineCommand::Advance(name) => {
                let reference = self.reference_at(*name)?;
                Ok(Command::Advance(reference))
            }
        }
    }

    fn field(&self, alloc: Global, line: &FieldLine) -> Result<Command, GiveFault>
        ensures { Gives (command_for self.now (said.Field line.now)) result }
    {
        let call = self.call_at(line.call)?;
        let path = line.path.copy(alloc)?;
        Ok(Command::Field(call, path))
    }

    fn call(&self, alloc: Global, null: &Payload, line: &CallLine) -> Result<Command, GiveFault>
        requires { null.now ≡ null_payload }
        ensures { Gives (command_for self.now (said.Call line.now)) result }
    {
        let reference = self.reference_at(line.reference)?;
        let refs = self.references_at(alloc, &line.caps)?;
        let payload = payload_carrying(alloc, null, refs.len())?;
        Ok(Command::Call(CallCommand {
            reference,
            interface: line.interface,
            method: line.method,
            payload,
            refs,
        }))
    }

    fn answer(
        &self,
        alloc: Global,
        null: &Payload,
        task: TaskId,
        caps: &Items<Name>,
    ) -> Result<Command, GiveFault>
        requires { null.now ≡ null_payload }
        ensures { Gives (command_for self.now (said.Answer task caps.now)) result }
    {
        let refs = self.references_at(alloc, caps.as_slice())?;
        let payload = payload_carrying(alloc, null, refs.len())?;
        Ok(Command::Answer(task, payload, refs))
    }

    fn resolve(&self, promise: Name, name: Name) -> Result<Command, GiveFault>
        ensures { Gives (command_for self.now (said.Resolve promise name)) result }
    {
        let promise = self.promise_at(promise)?;
        let reference = self.reference_at(name)?;
        Ok(Command::Resolve(promise, reference))
    }

    fn reject(&self, alloc: Global, promise: Name) -> Result<Command, GiveFault>
        ensures { Gives (command_for self.now (said.Reject promise)) result }
    {
        let promise = self.promise_at(promise)?;
        let exception = script_exception(alloc)?;
        Ok(Command::Reject(promise, exception))
    }

    /// The references of these names, in order.
    fn references_at(&self, alloc: Global, names: &[Name]) -> Result<Items<RefId>, GiveFault>
        ensures { Gives (references_at self.now names.now) result }
    {
        let mut refs = Items::new(alloc);
        for name in names {
            let reference = self.reference_at(*name)?;
            match refs.push(reference) {
                Ok(()) => {}
                Err(_) => return Err(GiveFault::Memory),
            }
        }
        Ok(refs)
    }
}

fn fail(alloc: Global, task: TaskId) -> Result<Command, GiveFault>
    ensures { Gives (Ok (command.Fail task script_exception)) result }
{
    let exception = script_exception(alloc)?;
    Ok(Command::Fail(task, exception))
}
