ghost use Rattle.std.specs.Prelude.{◌≡◌, IfOk, IfErr};
ghost use Rattle.rpc_machine.specs.declared.command.Command.TheVariants as command;
ghost use Rattle.rpc_machine.specs.declared.command.Granted.TheVariants as granted;
ghost use Rattle.rpc_machine.specs.Progress.{quiet};
ghost use Rattle.link_sides.specs.Answer.TheVariants as answer;
ghost use Rattle.link_rings.specs.Ends.{IsSameEnd};
ghost use Rattle.link_ends.specs.Ends.{Takes};

use crate::ends::VatEnd;
use crate::granted::promise_in;
use link_sides::{Answer, Refused};
use rpc_machine::{Command, Effects, Refusal};
use rpc_msg::{Exception, PromiseId, RefId};

impl<V> VatEnd<V> {
    /// Makes a promise that is open, and a reference to it: gives their numbers. Refused as `Core::promise` is, or with `Down`.
    pub fn promise(&mut self) -> Result<(PromiseId, RefId), Refusal>
        ensures end { IsSameEnd self.old.end self.new.end }
        ensures done { IfOk result (λ made. Takes self.old.end command.Promise (answer.Done (granted.Promise made.0 made.1) quiet) self.new.end) }
        ensures refused { IfErr result (λ r. Takes self.old.end command.Promise (answer.Refused r command.Promise) self.new.end) }
    {
        match self.command(Command::Promise) {
            Answer::Done(granted, effects) => {
                self.recycle(effects);
                Ok(promise_in(granted))
            }
            Answer::Refused(refusal, _) => Err(refusal),
        }
    }

    /// Settles a promise to what a reference leads to: gives what follows. Refused as `Core::resolve` is, or with `Down`.
    pub fn resolve(&mut self, promise: PromiseId, reference: RefId) -> Result<Effects, Refusal>
        ensures end { IsSameEnd self.old.end self.new.end }
        ensures done { IfOk result (λ effects. Takes self.old.end (command.Resolve promise reference) (answer.Done granted.Done effects) self.new.end) }
        ensures refused { IfErr result (λ r. Takes self.old.end (command.Resolve promise reference) (answer.Refused r (command.Resolve promise reference)) self.new.end) }
    {
        match self.ask(Command::Resolve(promise, reference)) {
            Ok(effects) => Ok(effects),
            Err(refused) => Err(refused.refusal),
        }
    }

    /// Breaks a promise: gives what follows. Refused as `Core::reject` is, or with `Down`; then the exception is handed back.
    pub fn reject(
        &mut self,
        promise: PromiseId,
        exception: Exception,
    ) -> Result<Effects, Refused<Exception>>
        ensures handed_back { IfErr result (λ e. e.back ≡ exception) }
        ensures end { IsSameEnd self.old.end self.new.end }
        ensures done { IfOk result (λ effects. Takes self.old.end (command.Reject promise exception) (answer.Done granted.Done effects) self.new.end) }
        ensures refused { IfErr result (λ e. Takes self.old.end (command.Reject promise exception) (answer.Refused e.refusal (command.Reject promise exception)) self.new.end) }
    {
        match self.ask(Command::Reject(promise, exception)) {
            Ok(effects) => Ok(effects),
            Err(
                Refused {
                    refusal,
                    back: Command::Reject(_, back),
                },
            ) => Err(Refused { refusal, back }),
            Err(_) => unreachable!(),
        }
    }
}
