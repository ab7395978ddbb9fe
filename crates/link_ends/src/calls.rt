ghost use Rattle.std.specs.Prelude.{◌≡◌, IfOk, IfErr};
ghost use Rattle.rpc_machine.specs.declared.command.Command.TheVariants as command;
ghost use Rattle.rpc_machine.specs.declared.command.Granted.TheVariants as granted;
ghost use Rattle.link_sides.specs.Answer.TheVariants as answer;
ghost use Rattle.link_rings.specs.Ends.{IsSameEnd};
ghost use Rattle.link_ends.specs.Ends.{Takes};

use crate::ends::VatEnd;
use link_sides::Refused;
use rpc_machine::{CallCommand, Command, Effects, Refusal};
use rpc_msg::CallId;

impl<V> VatEnd<V> {
    /// Asks the other vat for its bootstrap object: gives the number of the call, and what follows. Refused as `Core::bootstrap` is, or
    /// with `Down`.
    pub fn bootstrap(&mut self) -> Result<(CallId, Effects), Refusal>
        ensures end { IsSameEnd self.old.end self.new.end }
        ensures done { IfOk result (λ done. Takes self.old.end command.Bootstrap (answer.Done (granted.Call done.0) done.1) self.new.end) }
        ensures refused { IfErr result (λ r. Takes self.old.end command.Bootstrap (answer.Refused r command.Bootstrap) self.new.end) }
    {
        match self.ask_call(Command::Bootstrap) {
            Ok(done) => Ok(done),
            Err(refused) => Err(refused.refusal),
        }
    }

    /// Makes a call through a reference: gives its number, and what follows. The references that it sends stay the caller's.
    /// Refused as `Core::call` is, or with `Down`; then the call is handed back.
    pub fn call(&mut self, call: CallCommand) -> Result<(CallId, Effects), Refused<CallCommand>>
        ensures handed_back { IfErr result (λ e. e.back ≡ call) }
        ensures end { IsSameEnd self.old.end self.new.end }
        ensures done { IfOk result (λ done. Takes self.old.end (command.Call call) (answer.Done (granted.Call done.0) done.1) self.new.end) }
        ensures refused { IfErr result (λ e. Takes self.old.end (command.Call call) (answer.Refused e.refusal (command.Call call)) self.new.end) }
    {
        match self.ask_call(Command::Call(call)) {
            Ok(done) => Ok(done),
            Err(
                Refused {
                    refusal,
                    back: Command::Call(back),
                },
            ) => Err(Refused { refusal, back }),
            Err(_) => unreachable!(),
        }
    }

    /// Has no more use for a call: gives what follows. Refused as `Core::finish` is, or with `Down`.
    pub fn finish(&mut self, id: CallId) -> Result<Effects, Refusal>
        ensures end { IsSameEnd self.old.end self.new.end }
        ensures done { IfOk result (λ effects. Takes self.old.end (command.Finish id) (answer.Done granted.Done effects) self.new.end) }
        ensures refused { IfErr result (λ r. Takes self.old.end (command.Finish id) (answer.Refused r (command.Finish id)) self.new.end) }
    {
        match self.ask(Command::Finish(id)) {
            Ok(effects) => Ok(effects),
            Err(refused) => Err(refused.refusal),
        }
    }
}
