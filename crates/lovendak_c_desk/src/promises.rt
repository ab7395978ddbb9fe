ghost use Rattle.rpc_machine.specs.declared.command.Command.TheVariants as command;
ghost use Rattle.lovendak_c_desk.specs.Commands.{IsAsked, a_promise, Rejects, Resolves};
ghost use Rattle.lovendak_c_desk.specs.Given.{reference};

use crate::desk::Desk;
use crate::given::{kind_of, text_of};
use crate::not_done::NotDone;
use rpc_msg::{Exception, PromiseId, RefId};
use std::alloc::Global;

impl Desk {
    /// Makes a promise, and a reference to it: gives their numbers.
    pub fn promise(&mut self) -> Result<(u64, u64), NotDone>
        ensures { IsAsked self.old command.Promise a_promise result self.new }
    {
        match self.connection.promise() {
            Ok((promise, made)) => Ok((promise.0, made.0)),
            Err(refusal) => Err(NotDone::Refused(refusal)),
        }
    }

    /// Settles a promise to what a reference leads to. Refused with `Full`, if there is no place for one export more.
    pub fn resolve(&mut self, promise: u64, reference: u64) -> Result<(), NotDone>
        ensures { Resolves self.old promise reference result self.new }
    {
        match self
            .connection
            .resolve(PromiseId(promise), RefId(reference))
        {
            Ok(()) => Ok(()),
            Err(refusal) => Err(NotDone::Refused(refusal)),
        }
    }

    /// Breaks a promise with an exception of that kind with that reason, refused as `fail` refuses them.
    pub fn reject(
        &mut self,
        alloc: Global,
        promise: u64,
        kind: u32,
        reason: &[u8],
    ) -> Result<(), NotDone>
        ensures { Rejects self.old promise kind reason.now result self.new }
    {
        let kind = kind_of(kind)?;
        let reason = text_of(alloc, reason)?;
        match self
            .connection
            .reject(PromiseId(promise), Exception { kind, reason })
        {
            Ok(()) => Ok(()),
            Err(refused) => Err(NotDone::Refused(refused.refusal)),
        }
    }
}
