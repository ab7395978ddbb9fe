ghost use Rattle.std.specs.Prelude.{◌≡◌, Ok, Err, IfOk, IfErr, OnErr};
ghost use Rattle.rpc_machine.specs.declared.command.Command.TheVariants as command;
ghost use Rattle.rpc_machine.specs.declared.command.Granted.TheVariants as granted;
ghost use Rattle.rpc_machine.specs.Progress.{quiet};
ghost use Rattle.rpc_machine.specs.Steps.{Obeys};
ghost use Rattle.vat_core.specs.Answers.{AnswersTo};

use crate::commands::Answer;
use crate::refused::Refused;
use crate::vat::Core;
use core_step_checks::{check_answer, check_fail};
use rpc_machine::{Command, Effects, Granted};
use rpc_msg::{Exception, Items, Payload, RefId, TaskId};

impl Core {
    /// Gives a task its results, with what these references lead to as their capabilities; the references stay the caller's.
    /// Gives what follows. Refused, with nothing changed and the results handed back: `Down`; `Level` for references at level
    /// 0; `UnknownRef`; `UnknownTask`, answered ones too; `CapCount`. If memory is refused or a limit met, the vat goes
    /// down with fault 33.
    pub fn answer(
        &mut self,
        task: TaskId,
        payload: Payload,
        refs: Items<RefId>,
    ) -> Result<Effects, Refused<(Payload, Items<RefId>)>>
        ensures handed_back { IfErr result (λ e. (e.back.0 ≡ payload) × (e.back.1 ≡ refs)) }
        ensures unchanged { OnErr result (self.new ≡ self.old) }
        ensures done { IfOk result (λ effects. Obeys self.old (command.Answer task payload refs) (Ok granted.Done) effects self.new) }
        ensures refused { IfErr result (λ e. Obeys self.old (command.Answer task payload refs) (Err e.refusal) quiet self.new) }
    {
        if let Err(refusal) = check_answer(&self.machine.step.store, task, &payload, &refs) {
            return Err(Refused {
                refusal,
                back: (payload, refs),
            });
        }
        let effects = core_steps::answer(&mut self.machine, task, payload, refs);
        Ok(effects)
    }

    pub(crate) fn obey_answer(
        &mut self,
        task: TaskId,
        payload: Payload,
        refs: Items<RefId>,
    ) -> Answer
        ensures { AnswersTo self.old (command.Answer task payload refs) result self.new }
    {
        match self.answer(task, payload, refs) {
            Ok(effects) => Answer::Done(Granted::Done, effects),
            Err(Refused { refusal, back }) => {
                let (payload, refs) = back;
                Answer::Refused(refusal, Command::Answer(task, payload, refs))
            }
        }
    }

    /// Gives a task an exception: gives what follows. Refused, with nothing changed and the exception handed back: `Down`;
    /// `UnknownTask`, answered ones too. If memory is refused or a limit met, the vat goes down with fault 33.
    pub fn fail(
        &mut self,
        task: TaskId,
        exception: Exception,
    ) -> Result<Effects, Refused<Exception>>
        ensures handed_back { IfErr result (λ e. e.back ≡ exception) }
        ensures unchanged { OnErr result (self.new ≡ self.old) }
        ensures done { IfOk result (λ effects. Obeys self.old (command.Fail task exception) (Ok granted.Done) effects self.new) }
        ensures refused { IfErr result (λ e. Obeys self.old (command.Fail task exception) (Err e.refusal) quiet self.new) }
    {
        if let Err(refusal) = check_fail(&self.machine.step.store, task) {
            return Err(Refused {
                refusal,
                back: exception,
            });
        }
        let effects = core_steps::fail(&mut self.machine, task, exception);
        Ok(effects)
    }

    pub(crate) fn obey_fail(&mut self, task: TaskId, exception: Exception) -> Answer
        ensures { AnswersTo self.old (command.Fail task exception) result self.new }
    {
        match self.fail(task, exception) {
            Ok(effects) => Answer::Done(Granted::Done, effects),
            Err(Refused { refusal, back }) => Answer::Refused(refusal, Command::Fail(task, back)),
        }
    }
}
