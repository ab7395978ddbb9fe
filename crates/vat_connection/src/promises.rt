//! Promises are made and settled.
ghost use Rattle.std.specs.Prelude.{◌≡◌, IfErr};
ghost use Rattle.rpc_machine.specs.declared.command.Command.TheVariants as command;
ghost use Rattle.rpc_machine.specs.declared.command.Granted.TheVariants as granted;
ghost use Rattle.vat_connection.specs.Calling.{answered};
ghost use Rattle.vat_connection.specs.Connecting.{Asks, AsksToFit};

use crate::connection::Connection;
use crate::tasks::exception_back;
use rpc_machine::{Command, Refusal};
use rpc_msg::{Exception, PromiseId, RefId};
use vat_host::Refused;

impl Connection {
    /// Makes a promise, and a reference to it, as `Host::promise` does: gives their numbers. A refusal changes nothing.
    pub fn promise(&mut self) -> Result<(PromiseId, RefId), Refusal>
        ensures { Asks self.old command.Promise (answered result (λ made. granted.Promise made.0 made.1) (λ r. r)) self.new }
    {
        self.speaker.host.promise()
    }

    /// Settles a promise to what a reference leads to, as `Core::resolve` does. Refused with `Full` too, if there is no place for
    /// one export more (docs/protocol.md, "Limits"). A refusal changes nothing.
    pub fn resolve(&mut self, promise: PromiseId, reference: RefId) -> Result<(), Refusal>
        ensures { AsksToFit self.old (command.Resolve promise reference) (answered result (λ _. granted.Done) (λ r. r)) self.new }
    {
        match self.speaker.command(Command::Resolve(promise, reference)) {
            Ok(_granted) => return Ok(()),
            Err(refused) => return Err(refused.refusal),
        }
    }

    /// Breaks a promise, as `Core::reject` does. Refused with `Full` too, if the exception's reason may be too long for the
    /// frames that carry it. A refusal changes nothing, and the exception is handed back.
    pub fn reject(
        &mut self,
        promise: PromiseId,
        exception: Exception,
    ) -> Result<(), Refused<Exception>>
        ensures asks { AsksToFit self.old (command.Reject promise exception) (answered result (λ _. granted.Done) (λ e. e.refusal)) self.new }
        ensures handed_back { IfErr result (λ e. e.back ≡ exception) }
    {
        match self.speaker.command(Command::Reject(promise, exception)) {
            Ok(_granted) => return Ok(()),
            Err(refused) => return Err(exception_back(refused)),
        }
    }
}
