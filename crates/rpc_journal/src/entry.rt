ghost use Rattle.std.specs.Prelude.{◌≡◌, IfOk};

use crate::report::{Advanced, Delivery, Ended, Outcome};
use rpc_msg::{
    CallId, Exception, ExportId, Items, Memory, Message, ObjectId, Path, Payload, PromiseId, RefId,
    TaskId, Vat,
};
use std::alloc::Global;

/// Where a reference comes from that a command made.
#[derive(Clone, Copy, Debug, PartialEq, Eq, Drop)]
pub enum Origin {
    /// An object of its vat's application.
    Object(ObjectId),
    /// A promise of its vat's application.
    Promise(PromiseId),
    /// A clone of a reference.
    Clone(RefId),
    /// What stands at a path of a call's results, with the path as the command gave it.
    Field(CallId, Path),
}

/// A call that an application made.
#[derive(Drop)]
pub struct MadeCall {
    pub reference: RefId,
    /// How many calls were made through that reference before.
    pub index: u64,
    pub call: CallId,
    pub interface: u64,
    pub method: u16,
    pub payload: Payload,
    pub refs: Items<RefId>,
}

impl MadeCall {
    /// The same, in memory of its own.
    pub fn copy(&self, alloc: Global) -> Result<Self, Memory>
        ensures { IfOk result (λ copy. copy ≡ self.now) }
    {
        let payload = self.payload.copy(alloc)?;
        let refs = self.refs.copy(alloc)?;
        Ok(MadeCall {
            reference: self.reference,
            index: self.index,
            call: self.call,
            interface: self.interface,
            method: self.method,
            payload,
            refs,
        })
    }
}

/// The counts of a vat's exports and imports, by rising id.
#[derive(Drop)]
pub struct Counts {
    pub exports: Items<(ExportId, u32)>,
    pub imports: Items<(ExportId, u32)>,
}

impl Counts {
    /// The same counts, in memory of their own.
    pub fn copy(&self, alloc: Global) -> Result<Self, Memory>
        ensures { IfOk result (λ copy. copy ≡ self.now) }
    {
        let exports = self.exports.copy(alloc)?;
        let imports = self.imports.copy(alloc)?;
        Ok(Counts { exports, imports })
    }
}

/// What happened at a vat.
pub enum JournalEntry {
    /// The head of a trace, whose line says its version.
    Head,
    /// A command made a reference.
    Born(Vat, RefId, Origin),
    /// The application asked for the other vat's bootstrap object.
    Asked(Vat, CallId),
    /// The application made a call.
    Made(Vat, MadeCall),
    /// A call reached an object of the vat's application.
    Delivered(Vat, Delivery),
    /// The application gave a task its outcome, with the references that it sent.
    Answered(Vat, TaskId, Outcome, Items<RefId>),
    /// A call of the vat's application has its outcome.
    Ended(Vat, Ended),
    /// The application resolved a promise to a reference.
    Resolved(Vat, PromiseId, RefId),
    /// The application rejected a promise.
    Rejected(Vat, PromiseId, Exception),
    /// The application dropped a reference.
    Dropped(Vat, RefId),
    /// The application finished a call.
    Finished(Vat, CallId),
    /// The application asked a reference to take the shorter path.
    Advanced(Vat, RefId, Advanced),
    /// A command was refused, with that number.
    Refused(Vat, u16),
    /// The vat sent a message.
    Sent(Vat, Message),
    /// The vat received its oldest message.
    Got(Vat),
    /// The vat went down, with that fault or number.
    Down(Vat, u16),
    /// The counts of vat A and of vat B.
    Tables(Counts, Counts),
}

// By hand, so that it is proved once and not wherever an entry is let go.
impl Drop for JournalEntry {
    fn drop(self) {
        match self {
            JournalEntry::Head => {}
            JournalEntry::Born(_, _, _) => {}
            JournalEntry::Asked(_, _) => {}
            JournalEntry::Made(_, _) => {}
            JournalEntry::Delivered(_, _) => {}
            JournalEntry::Answered(_, _, _, _) => {}
            JournalEntry::Ended(_, _) => {}
            JournalEntry::Resolved(_, _, _) => {}
            JournalEntry::Rejected(_, _, _) => {}
            JournalEntry::Dropped(_, _) => {}
            JournalEntry::Finished(_, _) => {}
            JournalEntry::Advanced(_, _, _) => {}
            JournalEntry::Refused(_, _) => {}
            JournalEntry::Sent(_, _) => {}
            JournalEntry::Got(_) => {}
            JournalEntry::Down(_, _) => {}
            JournalEntry::Tables(_, _) => {}
        }
    }
}

impl JournalEntry {
    /// The same entry, in memory of its own.
    pub fn copy(&self, alloc: Global) -> Result<Self, Memory>
        ensures { IfOk result (λ copy. copy ≡ self.now) }
    {
        match self {
            JournalEntry::Head => Ok(JournalEntry::Head),
            JournalEntry::Born(vat, reference, origin) => {
                Ok(JournalEntry::Born(*vat, *reference, *origin))
            }
            JournalEntry::Asked(vat, call) => Ok(JournalEntry::Asked(*vat, *call)),
            JournalEntry::Made(vat, made) => {
                let made = made.copy(alloc)?;
                Ok(JournalEntry::Made(*vat, made))
            }
            JournalEntry::Delivered(vat, delivery) => {
                let delivery = delivery.copy(alloc)?;
                Ok(JournalEntry::Delivered(*vat, delivery))
            }
            JournalEntry::Answered(vat, task, outcome, refs) => {
                let outcome = outcome.copy(alloc)?;
                let refs = refs.copy(alloc)?;
                Ok(JournalEntry::Answered(*vat, *task, outcome, refs))
            }
            JournalEntry::Ended(vat, ended) => {
                let ended = ended.copy(alloc)?;
                Ok(JournalEntry::Ended(*vat, ended))
            }
            JournalEntry::Resolved(vat, promise, reference) => {
                Ok(JournalEntry::Resolved(*vat, *promise, *reference))
            }
            JournalEntry::Rejected(vat, promise, exception) => {
                let exception = exception.copy(alloc)?;
                Ok(JournalEntry::Rejected(*vat, *promise, exception))
            }
            JournalEntry::Dropped(vat, reference) => Ok(JournalEntry::Dropped(*vat, *reference)),
            JournalEntry::Finished(vat, call) => Ok(JournalEntry::Finished(*vat, *call)),
            JournalEntry::Advanced(vat, reference, advanced) => {
                Ok(JournalEntry::Advanced(*vat, *reference, *advanced))
            }
            JournalEntry::Refused(vat, number) => Ok(JournalEntry::Refused(*vat, *number)),
            JournalEntry::Sent(vat, message) => {
                let message = message.copy(alloc)?;
                Ok(JournalEntry::Sent(*vat, message))
            }
            JournalEntry::Got(vat) => Ok(JournalEntry::Got(*vat)),
            JournalEntry::Down(vat, fault) => Ok(JournalEntry::Down(*vat, *fault)),
            JournalEntry::Tables(a, b) => {
                let a = a.copy(alloc)?;
                let b = b.copy(alloc)?;
                Ok(JournalEntry::Tables(a, b))
            }
        }
    }
}
