ghost use Rattle.std.specs.Prelude.{◌≡◌, IfOk, IfErr};
ghost use Rattle.rpc_machine.specs.declared.command.Command.TheVariants as command;
ghost use Rattle.rpc_machine.specs.declared.command.Granted.TheVariants as granted;
ghost use Rattle.link_sides.specs.Answer.TheVariants as answer;
ghost use Rattle.link_rings.specs.Ends.{IsSameEnd};
ghost use Rattle.link_ends.specs.Ends.{Takes};

use crate::ends::VatEnd;
use link_sides::Refused;
use rpc_machine::{Command, Effects};
use rpc_msg::{Exception, Items, Payload, RefId, TaskId};

impl<V> VatEnd<V> {
    /// Gives a task its results, with what these references lead to as their capabilities; the references stay the caller's.
    /// Gives what follows. Refused as `Core::answer` is, or with `Down`; then the results are handed back.
    pub fn answer(
        &mut self,
        task: TaskId,
        payload: Payload,
        refs: Items<RefId>,
    ) -> Result<Effects, Refused<(Payload, Items<RefId>)>>
        ensures handed_back { IfErr result (λ e. (e.back.0 ≡ payload) × (e.back.1 ≡ refs)) }
        ensures end { IsSameEnd self.old.end self.new.end }
        ensures done { IfOk result (λ effects. Takes self.old.end (command.Answer task payload refs) (answer.Done granted.Done effects) self.new.end) }
        ensures refused { IfErr result (λ e. Takes self.old.end (command.Answer task payload refs) (answer.Refused e.refusal (command.Answer task payload refs)) self.new.end) }
    {
        match self.ask(Command::Answer(task, payload, refs)) {
            Ok(effects) => Ok(effects),
            Err(
                Refused {
                    refusal,
                    back: Command::Answer(_, payload, refs),
                },
            ) => Err(Refused {
                refusal,
                back: (payload, refs),
            }),
            Err(_) => unreachable!(),
        }
    }

    /// Gives a task an exception: gives what follows. Refused as `Core::fail` is, or with `Down`; then the exception is handed back.
    pub fn fail(
        &mut self,
        task: TaskId,
        exception: Exception,
    ) -> Result<Effects, Refused<Exception>>
        ensures handed_back { IfErr result (λ e. e.back ≡ exception) }
        ensures end { IsSameEnd self.old.end self.new.end }
        ensures done { IfOk result (λ effects. Takes self.old.end (command.Fail task exception) (answer.Done granted.Done effects) self.new.end) }
        ensures refused { IfErr result (λ e. Takes self.old.end (command.Fail task exception) (answer.Refused e.refusal (command.Fail task exception)) self.new.end) }
    {
        match self.ask(Command::Fail(task, exception)) {
            Ok(effects) => Ok(effects),
            Err(
                Refused {
                    refusal,
                    back: Command::Fail(_, back),
                },
            ) => Err(Refused { refusal, back }),
            Err(_) => unreachable!(),
        }
    }
}
