ghost use Rattle.std.specs.Prelude.{◌≡◌, Ok, Err, IfOk, IfErr, OnErr};
ghost use Rattle.rpc_machine.specs.declared.command.Command.TheVariants as command;
ghost use Rattle.rpc_machine.specs.declared.command.Granted.TheVariants as granted;
ghost use Rattle.rpc_machine.specs.Progress.{quiet};
ghost use Rattle.rpc_machine.specs.Steps.{Obeys};
ghost use Rattle.vat_core.specs.Answers.{AnswersTo};

use crate::commands::Answer;
use crate::refused::Refused;
use crate::vat::Core;
use core_step_checks::{check_bootstrap, check_call_whole, check_finish};
use core_steps::{call_straight, shorten_heads, straight};
use laws_nodes::calls_have_their_own;
use rpc_machine::{CallCommand, Command, Effects, Granted, Refusal};
use rpc_msg::CallId;

impl Core {
    /// Asks the peer for its bootstrap object: gives the number of the call, and what follows. Refused, with nothing changed:
    /// `Down`; `Full` at 4,096 questions or the last number of a call; `Memory`.
    pub fn bootstrap(&mut self) -> Result<(CallId, Effects), Refusal>
        ensures unchanged { OnErr result (self.new ≡ self.old) }
        ensures done { IfOk result (λ done. Obeys self.old command.Bootstrap (Ok (granted.Call done.0)) done.1 self.new) }
        ensures refused { IfErr result (λ r. Obeys self.old command.Bootstrap (Err r) quiet self.new) }
    {
        check_bootstrap(&self.machine.step.store)?;
        let Ok(done) = core_steps::bootstrap(&mut self.machine) else {
            return Err(Refusal::Memory);
        };
        Ok(done)
    }

    pub(crate) fn obey_bootstrap(&mut self) -> Answer
        ensures { AnswersTo self.old command.Bootstrap result self.new }
    {
        match self.bootstrap() {
            Ok((id, effects)) => Answer::Done(Granted::Call(id), effects),
            Err(refusal) => Answer::Refused(refusal, Command::Bootstrap),
        }
    }

    /// Makes a call through a reference: gives its number, and what follows. The references that it sends stay the caller's.
    /// Refused, with nothing changed and the call handed back: `Down`; `Level` for references at level 0; `UnknownRef`;
    /// `CapCount`; `Full` at a limit of what it needs (`docs/protocol.md`, "Refusals"); `Memory`.
    pub fn call(&mut self, call: CallCommand) -> Result<(CallId, Effects), Refused<CallCommand>>
        ensures handed_back { IfErr result (λ e. e.back ≡ call) }
        ensures unchanged { OnErr result (self.new ≡ self.old) }
        ensures done { IfOk result (λ done. Obeys self.old (command.Call call) (Ok (granted.Call done.0)) done.1 self.new) }
        ensures refused { IfErr result (λ e. Obeys self.old (command.Call call) (Err e.refusal) quiet self.new) }
    {
        let Some(straight) = straight(&self.machine.step.store, &call) else {
            return self.call_any(call);
        };
        let done = match call_straight(&mut self.machine, call, straight) {
            Ok(done) => done,
            Err(back) => return Err(Refused {
                refusal: Refusal::Memory,
                back,
            }),
        };
        Ok(done)
    }

    // Any call: `call` takes a shorter way if it goes to an import at once.
    #[inline(never)]
    fn call_any(&mut self, call: CallCommand) -> Result<(CallId, Effects), Refused<CallCommand>>
        ensures handed_back { IfErr result (λ e. e.back ≡ call) }
        ensures unchanged { OnErr result (self.new ≡ self.old) }
        ensures done { IfOk result (λ done. Obeys self.old (command.Call call) (Ok (granted.Call done.0)) done.1 self.new) }
        ensures refused { IfErr result (λ e. Obeys self.old (command.Call call) (Err e.refusal) quiet self.new) }
    {
        let None = self.machine.step.store.down else {
            return Err(Refused {
                refusal: Refusal::Down,
                back: call,
            });
        };
        shorten_heads(&mut self.machine, &call);
        let store = &self.machine.step.store;
        if let Err(refusal) = check_call_whole(store, self.machine.alloc, &call) {
            return Err(Refused {
                refusal,
                back: call,
            });
        }
        let done = match core_steps::call(&mut self.machine, call) {
            Ok(done) => done,
            Err(back) => return Err(Refused {
                refusal: Refusal::Memory,
                back,
            }),
        };
        Ok(done)
    }

    pub(crate) fn obey_call(&mut self, call: CallCommand) -> Answer
        ensures { AnswersTo self.old (command.Call call) result self.new }
    {
        match self.call(call) {
            Ok((id, effects)) => Answer::Done(Granted::Call(id), effects),
            Err(Refused { refusal, back }) => Answer::Refused(refusal, Command::Call(back)),
        }
    }

    /// Has no more use for a call, of which the application is not told any more: gives what follows. Refused, with nothing
    /// changed: `Down`; `UnknownCall`, finished ones too; `Memory`.
    pub fn finish(&mut self, id: CallId) -> Result<Effects, Refusal>
        ensures unchanged { OnErr result (self.new ≡ self.old) }
        ensures done { IfOk result (λ effects. Obeys self.old (command.Finish id) (Ok granted.Done) effects self.new) }
        ensures refused { IfErr result (λ r. Obeys self.old (command.Finish id) (Err r) quiet self.new) }
    {
        check_finish(&self.machine.step.store, id)?;
        calls_have_their_own();
        let Ok(effects) = core_steps::finish(&mut self.machine, id) else {
            return Err(Refusal::Memory);
        };
        Ok(effects)
    }

    pub(crate) fn obey_finish(&mut self, id: CallId) -> Answer
        ensures { AnswersTo self.old (command.Finish id) result self.new }
    {
        match self.finish(id) {
            Ok(effects) => Answer::Done(Granted::Done, effects),
            Err(refusal) => Answer::Refused(refusal, Command::Finish(id)),
        }
    }
}
