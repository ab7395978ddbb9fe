ghost use Rattle.rpc_machine.specs.declared.command.Command.TheVariants as command;
ghost use Rattle.lovendak_c_desk.specs.Commands.{CallsWith, IsAsked, a_call, call_of, nothing};
ghost use Rattle.lovendak_c_desk.specs.Given.{reference};

use crate::desk::Desk;
use crate::given::{payload_of, refs_of};
use crate::not_done::NotDone;
use rpc_msg::{CallId, RefId};
use std::alloc::Global;
use vat_connection::CallCommand;

impl Desk {
    /// Asks the peer for its bootstrap object: gives the number of the call.
    pub fn bootstrap(&mut self) -> Result<u64, NotDone>
        ensures { IsAsked self.old command.Bootstrap a_call result self.new }
    {
        match self.connection.bootstrap() {
            Ok(call) => Ok(call.0),
            Err(refusal) => Err(NotDone::Refused(refusal)),
        }
    }

    /// Makes a call through a reference, as `Connection::call`: gives the number of the call.
    /// `Malformed` if the bytes are no payload with so many capabilities.
    pub fn call(
        &mut self,
        alloc: Global,
        reference: u64,
        method: (u64, u16),
        payload: &[u8],
        refs: &[u64],
    ) -> Result<u64, NotDone>
        ensures { CallsWith self.old (call_of reference method.0 method.1 payload.now refs.now) result self.new }
    {
        let (interface, method) = method;
        let payload = payload_of(alloc, payload, refs.len())?;
        let refs = refs_of(alloc, refs)?;
        let reference = RefId(reference);
        match self.connection.call(CallCommand {
            reference,
            interface,
            method,
            payload,
            refs,
        }) {
            Ok(call) => Ok(call.0),
            Err(refused) => Err(NotDone::Refused(refused.refusal)),
        }
    }

    /// Has no more use for a call.
    pub fn finish(&mut self, call: u64) -> Result<(), NotDone>
        ensures { IsAsked self.old (command.Finish (record { 0 = call })) nothing result self.new }
    {
        match self.connection.finish(CallId(call)) {
            Ok(()) => Ok(()),
            Err(refusal) => Err(NotDone::Refused(refusal)),
        }
    }
}
