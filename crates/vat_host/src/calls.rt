//! Calls: the peer's bootstrap object is asked for, calls are made and let go.
ghost use Rattle.std.specs.Prelude.{◌≡◌, IfOk, IfErr};
ghost use Rattle.rpc_machine.specs.declared.command.Command.TheVariants as command;
ghost use Rattle.rpc_machine.specs.declared.command.Granted.TheVariants as granted;
ghost use Rattle.vat_host.specs.Hosting.{Does, Refuses};

use crate::host::Host;
use rpc_machine::{CallCommand, Refusal};
use rpc_msg::CallId;
use vat_core::Refused;

impl Host {
    /// Asks the peer for its bootstrap object, as `Core::bootstrap` does, and keeps what follows: gives the number of the call.
    pub fn bootstrap(&mut self) -> Result<CallId, Refusal>
        ensures done { IfOk result (λ id. Does self.old command.Bootstrap (granted.Call id) self.new) }
        ensures refused { IfErr result (λ r. Refuses self.old command.Bootstrap r self.new) }
    {
        self.kept.make_place()?;
        let (call, effects) = match self.core.bootstrap() {
            Ok(done) => done,
            Err(refusal) => return Err(refusal),
        };
        self.unanswered.follow(&effects, &self.core);
        self.kept.keep(effects, None);
        Ok(call)
    }

    /// Makes a call through a reference, as `Core::call` does, and keeps what follows: gives its number. A call that is refused
    /// is handed back.
    pub fn call(&mut self, call: CallCommand) -> Result<CallId, Refused<CallCommand>>
        ensures done { IfOk result (λ id. Does self.old (command.Call call) (granted.Call id) self.new) }
        ensures refused { IfErr result (λ e. Refuses self.old (command.Call call) e.refusal self.new) }
        ensures handed_back { IfErr result (λ e. e.back ≡ call) }
    {
        let Ok(()) = self.kept.make_place() else {
            return Err(Refused {
                refusal: Refusal::Memory,
                back: call,
            });
        };
        let (call, effects) = match self.core.call(call) {
            Ok(done) => done,
            Err(refused) => return Err(refused),
        };
        self.unanswered.follow(&effects, &self.core);
        self.kept.keep(effects, None);
        Ok(call)
    }

    /// Has no more use for a call, as `Core::finish` does, and keeps what follows. A refusal changes nothing.
    pub fn finish(&mut self, id: CallId) -> Result<(), Refusal>
        ensures done { IfOk result (λ _. Does self.old (command.Finish id) granted.Done self.new) }
        ensures refused { IfErr result (λ r. Refuses self.old (command.Finish id) r self.new) }
    {
        self.kept.make_place()?;
        let effects = match self.core.finish(id) {
            Ok(effects) => effects,
            Err(refusal) => return Err(refusal),
        };
        self.unanswered.follow(&effects, &self.core);
        self.kept.keep(effects, None);
        Ok(())
    }
}
