ghost use Rattle.std.specs.Prelude.{◌≡◌, Ok, Err, IfOk, IfErr, OnErr};
ghost use Rattle.rpc_machine.specs.declared.command.Command.TheVariants as command;
ghost use Rattle.rpc_machine.specs.declared.command.Granted.TheVariants as granted;
ghost use Rattle.rpc_machine.specs.Progress.{quiet};
ghost use Rattle.rpc_machine.specs.Steps.{Obeys};
ghost use Rattle.vat_core.specs.Answers.{AnswersTo};

use crate::commands::Answer;
use crate::refused::Refused;
use crate::vat::Core;
use core_step_checks::{check_promise, check_reject, check_resolve};
use rpc_machine::{Command, Effects, Granted, Refusal};
use rpc_msg::{Exception, PromiseId, RefId};

impl Core {
    /// Makes a promise that is open, and a reference to it: gives their numbers. Nothing is said. Refused, with nothing
    /// changed: `Down`; `Level` at level 0; `Full` at the last number of a promise or a reference; `Memory`.
    pub fn promise(&mut self) -> Result<(PromiseId, RefId), Refusal>
        ensures unchanged { OnErr result (self.new ≡ self.old) }
        ensures done { IfOk result (λ made. Obeys self.old command.Promise (Ok (granted.Promise made.0 made.1)) quiet self.new) }
        ensures refused { IfErr result (λ r. Obeys self.old command.Promise (Err r) quiet self.new) }
    {
        check_promise(&self.machine.step.store)?;
        let Ok(made) = core_steps::promise(&mut self.machine) else {
            return Err(Refusal::Memory);
        };
        Ok(made)
    }

    pub(crate) fn obey_promise(&mut self) -> Answer
        ensures { AnswersTo self.old command.Promise result self.new }
    {
        match self.promise() {
            Ok((promise, made)) => Answer::Done(Granted::Promise(promise, made), self.nothing()),
            Err(refusal) => Answer::Refused(refusal, Command::Promise),
        }
    }

    /// Settles a promise to what a reference leads to: gives what follows. Refused, with nothing changed: `Down`; `Level` at
    /// level 0; `UnknownRef`; `UnknownPromise`, settled ones too; `Cycle` if the reference leads to the promise. If
    /// memory is refused or a limit met, the vat goes down with fault 33.
    pub fn resolve(&mut self, promise: PromiseId, reference: RefId) -> Result<Effects, Refusal>
        ensures unchanged { OnErr result (self.new ≡ self.old) }
        ensures done { IfOk result (λ effects. Obeys self.old (command.Resolve promise reference) (Ok granted.Done) effects self.new) }
        ensures refused { IfErr result (λ r. Obeys self.old (command.Resolve promise reference) (Err r) quiet self.new) }
    {
        check_resolve(&self.machine.step.store, promise, reference)?;
        let effects = core_steps::resolve(&mut self.machine, promise, reference);
        Ok(effects)
    }

    pub(crate) fn obey_resolve(&mut self, promise: PromiseId, reference: RefId) -> Answer
        ensures { AnswersTo self.old (command.Resolve promise reference) result self.new }
    {
        match self.resolve(promise, reference) {
            Ok(effects) => Answer::Done(Granted::Done, effects),
            Err(refusal) => Answer::Refused(refusal, Command::Resolve(promise, reference)),
        }
    }

    /// Breaks a promise: gives what follows. Refused, with nothing changed and the exception handed back: `Down`; `Level` at
    /// level 0; `UnknownPromise`, settled ones too. If memory is refused or a limit met, the vat goes down with fault 33.
    pub fn reject(
        &mut self,
        promise: PromiseId,
        exception: Exception,
    ) -> Result<Effects, Refused<Exception>>
        ensures handed_back { IfErr result (λ e. e.back ≡ exception) }
        ensures unchanged { OnErr result (self.new ≡ self.old) }
        ensures done { IfOk result (λ effects. Obeys self.old (command.Reject promise exception) (Ok granted.Done) effects self.new) }
        ensures refused { IfErr result (λ e. Obeys self.old (command.Reject promise exception) (Err e.refusal) quiet self.new) }
    {
        if let Err(refusal) = check_reject(&self.machine.step.store, promise) {
            return Err(Refused {
                refusal,
                back: exception,
            });
        }
        let effects = core_steps::reject(&mut self.machine, promise, exception);
        Ok(effects)
    }

    pub(crate) fn obey_reject(&mut self, promise: PromiseId, exception: Exception) -> Answer
        ensures { AnswersTo self.old (command.Reject promise exception) result self.new }
    {
        match self.reject(promise, exception) {
            Ok(effects) => Answer::Done(Granted::Done, effects),
            Err(Refused { refusal, back }) => Answer::Refused(
                refusal,
                Command::Reject(promise, back),
            ),
        }
    }
}
