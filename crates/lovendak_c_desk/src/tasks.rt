ghost use Rattle.lovendak_c_desk.specs.Commands.{Answers, Fails};

use crate::desk::Desk;
use crate::given::{kind_of, payload_of, refs_of, text_of};
use crate::not_done::NotDone;
use rpc_msg::{Exception, TaskId};
use std::alloc::Global;

impl Desk {
    /// Gives a task its results. `Malformed` if the bytes are no payload with so many capabilities.
    pub fn answer(
        &mut self,
        alloc: Global,
        task: u64,
        payload: &[u8],
        refs: &[u64],
    ) -> Result<(), NotDone>
        ensures { Answers self.old task payload.now refs.now result self.new }
    {
        let payload = payload_of(alloc, payload, refs.len())?;
        let refs = refs_of(alloc, refs)?;
        match self.connection.answer(TaskId(task), payload, refs) {
            Ok(()) => Ok(()),
            Err(refused) => Err(NotDone::Refused(refused.refusal)),
        }
    }

    /// Gives a task an exception of that kind with that reason. `NoSuchNumber` if the kind is none, and `Malformed` if the
    /// reason is no text.
    pub fn fail(
        &mut self,
        alloc: Global,
        task: u64,
        kind: u32,
        reason: &[u8],
    ) -> Result<(), NotDone>
        ensures { Fails self.old task kind reason.now result self.new }
    {
        let kind = kind_of(kind)?;
        let reason = text_of(alloc, reason)?;
        match self
            .connection
            .fail(TaskId(task), Exception { kind, reason })
        {
            Ok(()) => Ok(()),
            Err(refused) => Err(NotDone::Refused(refused.refusal)),
        }
    }
}
