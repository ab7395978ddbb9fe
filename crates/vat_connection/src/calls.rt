//! Calls: the peer's bootstrap object is asked for, calls are made and let go.
ghost use Rattle.std.specs.Prelude.{◌≡◌, ◌⊎◌, Ok, Err, IfOk, IfErr};
ghost use Rattle.rpc_machine.specs.declared.command.Command.TheVariants as command;
ghost use Rattle.rpc_machine.specs.declared.command.Granted.TheVariants as granted;
ghost use Rattle.vat_connection.specs.Calling.{Calls, Fits, IsTooLarge, answered};
ghost use Rattle.vat_connection.specs.Connecting.{Asks, answered_by};

use crate::connection::Connection;
use rpc_machine::{CallCommand, Refusal};
use rpc_msg::CallId;
use vat_host::Refused;

impl Connection {
    /// Asks the peer for its bootstrap object, as `Host::bootstrap` does: gives the number of the call. A refusal changes
    /// nothing.
    pub fn bootstrap(&mut self) -> Result<CallId, Refusal>
        ensures { Asks self.old command.Bootstrap (answered result granted.Call (λ r. r)) self.new }
    {
        let Ok(()) = self.open_calls.reserve() else {
            return Err(Refusal::Memory);
        };
        match self.speaker.host.bootstrap() {
            Ok(id) => {
                self.open_calls.add(id);
                return Ok(id);
            }
            Err(refusal) => return Err(refusal),
        }
    }

    /// Makes a call through a reference, as `Host::call` does: gives the number of the call. The reference takes one
    /// step of the shorter path before, if one is known, and unless that step is refused. Refused with `Full` too, if the payload may
    /// be too large for the frames that carry it (docs/messages.md, "What fits"). A call that is refused is handed back.
    pub fn call(&mut self, call: CallCommand) -> Result<CallId, Refused<CallCommand>>
        ensures done { IfOk result (λ id. Calls self.old.speaker.host call (Ok id) self.new.speaker.host × Fits (command.Call call)) }
        ensures refused { IfErr result (λ e. Calls self.old.speaker.host call (Err e.refusal) self.new.speaker.host ⊎ IsTooLarge self.old.speaker.host (command.Call call) e.refusal self.new.speaker.host) }
        ensures handed_back { IfErr result (λ e. e.back ≡ call) }
        ensures rest { self.new ≡ answered_by self.old (command.Call call) (answered result granted.Call (λ e. e.refusal)) self.new.speaker.host }
    {
        let Ok(()) = self.open_calls.reserve() else {
            return Err(Refused {
                refusal: Refusal::Memory,
                back: call,
            });
        };
        match self.speaker.call(call) {
            Ok(id) => {
                self.open_calls.add(id);
                return Ok(id);
            }
            Err(refused) => return Err(refused),
        }
    }

    /// Has no more use for a call, as `Host::finish` does. A refusal changes nothing.
    pub fn finish(&mut self, id: CallId) -> Result<(), Refusal>
        ensures { Asks self.old (command.Finish id) (answered result (λ _. granted.Done) (λ r. r)) self.new }
    {
        match self.speaker.host.finish(id) {
            Ok(()) => {
                self.open_calls.remove(id);
                return Ok(());
            }
            Err(refusal) => return Err(refusal),
        }
    }
}
