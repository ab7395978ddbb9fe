//! Tasks, which are delivered calls, are settled.
ghost use Rattle.std.specs.Prelude.{◌≡◌, IfOk, IfErr};
ghost use Rattle.rpc_machine.specs.declared.command.Command.TheVariants as command;
ghost use Rattle.rpc_machine.specs.declared.command.Granted.TheVariants as granted;
ghost use Rattle.vat_host.specs.Hosting.{Does, Refuses};

use crate::host::Host;
use rpc_machine::Refusal;
use rpc_msg::{Exception, Items, Payload, RefId, TaskId};
use vat_core::Refused;

impl Host {
    /// Gives a task its results, as `Core::answer` does, and keeps what follows. A refusal changes nothing, and the results are
    /// handed back.
    pub fn answer(
        &mut self,
        task: TaskId,
        payload: Payload,
        refs: Items<RefId>,
    ) -> Result<(), Refused<(Payload, Items<RefId>)>>
        ensures done { IfOk result (λ _. Does self.old (command.Answer task payload refs) granted.Done self.new) }
        ensures refused { IfErr result (λ e. Refuses self.old (command.Answer task payload refs) e.refusal self.new) }
        ensures handed_back { IfErr result (λ e. (e.back.0 ≡ payload) × (e.back.1 ≡ refs)) }
    {
        let Ok(()) = self.kept.make_place() else {
            return Err(Refused {
                refusal: Refusal::Memory,
                back: (payload, refs),
            });
        };
        let effects = match self.core.answer(task, payload, refs) {
            Ok(effects) => effects,
            Err(refused) => return Err(refused),
        };
        self.unanswered.follow(&effects, &self.core);
        self.kept.keep(effects, None);
        Ok(())
    }

    /// Gives a task an exception, as `Core::fail` does, and keeps what follows. A refusal changes nothing, and the exception is
    /// handed back.
    pub fn fail(&mut self, task: TaskId, exception: Exception) -> Result<(), Refused<Exception>>
        ensures done { IfOk result (λ _. Does self.old (command.Fail task exception) granted.Done self.new) }
        ensures refused { IfErr result (λ e. Refuses self.old (command.Fail task exception) e.refusal self.new) }
        ensures handed_back { IfErr result (λ e. e.back ≡ exception) }
    {
        let Ok(()) = self.kept.make_place() else {
            return Err(Refused {
                refusal: Refusal::Memory,
                back: exception,
            });
        };
        let effects = match self.core.fail(task, exception) {
            Ok(effects) => effects,
            Err(refused) => return Err(refused),
        };
        self.unanswered.follow(&effects, &self.core);
        self.kept.keep(effects, None);
        Ok(())
    }
}
