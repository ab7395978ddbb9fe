//! Promises are made and settled.
ghost use Rattle.std.specs.Prelude.{◌≡◌, IfOk, IfErr};
ghost use Rattle.rpc_machine.specs.declared.command.Command.TheVariants as command;
ghost use Rattle.rpc_machine.specs.declared.command.Granted.TheVariants as granted;
ghost use Rattle.vat_host.specs.Hosting.{Does, Refuses};

use crate::host::Host;
use rpc_machine::Refusal;
use rpc_msg::{Exception, PromiseId, RefId};
use vat_core::Refused;

impl Host {
    /// Makes a promise, and a reference to it, as `Core::promise` does: gives their numbers. Nothing follows.
    pub fn promise(&mut self) -> Result<(PromiseId, RefId), Refusal>
        ensures done { IfOk result (λ made. Does self.old command.Promise (granted.Promise made.0 made.1) self.new) }
        ensures refused { IfErr result (λ r. Refuses self.old command.Promise r self.new) }
    {
        let made = match self.core.promise() {
            Ok(made) => made,
            Err(refusal) => return Err(refusal),
        };
        Ok(made)
    }

    /// Settles a promise to what a reference leads to, as `Core::resolve` does, and keeps what follows. A refusal changes
    /// nothing.
    pub fn resolve(&mut self, promise: PromiseId, reference: RefId) -> Result<(), Refusal>
        ensures done { IfOk result (λ _. Does self.old (command.Resolve promise reference) granted.Done self.new) }
        ensures refused { IfErr result (λ r. Refuses self.old (command.Resolve promise reference) r self.new) }
    {
        self.kept.make_place()?;
        let effects = match self.core.resolve(promise, reference) {
            Ok(effects) => effects,
            Err(refusal) => return Err(refusal),
        };
        self.unanswered.follow(&effects, &self.core);
        self.kept.keep(effects, None);
        Ok(())
    }

    /// Breaks a promise, as `Core::reject` does, and keeps what follows. A refusal changes nothing, and the exception is handed
    /// back.
    pub fn reject(
        &mut self,
        promise: PromiseId,
        exception: Exception,
    ) -> Result<(), Refused<Exception>>
        ensures done { IfOk result (λ _. Does self.old (command.Reject promise exception) granted.Done self.new) }
        ensures refused { IfErr result (λ e. Refuses self.old (command.Reject promise exception) e.refusal self.new) }
        ensures handed_back { IfErr result (λ e. e.back ≡ exception) }
    {
        let Ok(()) = self.kept.make_place() else {
            return Err(Refused {
                refusal: Refusal::Memory,
                back: exception,
            });
        };
        let effects = match self.core.reject(promise, exception) {
            Ok(effects) => effects,
            Err(refused) => return Err(refused),
        };
        self.unanswered.follow(&effects, &self.core);
        self.kept.keep(effects, None);
        Ok(())
    }
}
