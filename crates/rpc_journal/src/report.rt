ghost use Rattle.std.specs.Prelude.{◌≡◌, IfOk};

use rpc_msg::{CallId, Exception, Items, Memory, ObjectId, Payload, RefId, Stamp, TaskId};
use std::alloc::Global;

/// How a call ended, without its capabilities.
#[derive(Drop)]
pub enum Outcome {
    Results(Payload),
    Exception(Exception),
}

impl Outcome {
    /// The same outcome, in memory of its own.
    pub fn copy(&self, alloc: Global) -> Result<Self, Memory>
        ensures { IfOk result (λ copy. copy ≡ self.now) }
    {
        match self {
            Outcome::Results(payload) => {
                let payload = payload.copy(alloc)?;
                Ok(Outcome::Results(payload))
            }
            Outcome::Exception(exception) => {
                let exception = exception.copy(alloc)?;
                Ok(Outcome::Exception(exception))
            }
        }
    }
}

/// A call that reached an object of this vat's application, with one new reference for each of its descriptors.
#[derive(Drop)]
pub struct Delivery {
    pub task: TaskId,
    pub object: ObjectId,
    pub stamp: Stamp,
    pub interface: u64,
    pub method: u16,
    pub payload: Payload,
    pub refs: Items<RefId>,
}

impl Delivery {
    /// The same delivery, in memory of its own.
    pub fn copy(&self, alloc: Global) -> Result<Self, Memory>
        ensures { IfOk result (λ copy. copy ≡ self.now) }
    {
        let payload = self.payload.copy(alloc)?;
        let refs = self.refs.copy(alloc)?;
        Ok(Delivery {
            task: self.task,
            object: self.object,
            stamp: self.stamp,
            interface: self.interface,
            method: self.method,
            payload,
            refs,
        })
    }
}

/// A call or Bootstrap of this vat's application that has its outcome, with one new reference for each descriptor.
#[derive(Drop)]
pub struct Ended {
    pub call: CallId,
    pub outcome: Outcome,
    pub refs: Items<RefId>,
}

impl Ended {
    /// The same, in memory of its own.
    pub fn copy(&self, alloc: Global) -> Result<Self, Memory>
        ensures { IfOk result (λ copy. copy ≡ self.now) }
    {
        let outcome = self.outcome.copy(alloc)?;
        let refs = self.refs.copy(alloc)?;
        Ok(Ended {
            call: self.call,
            outcome,
            refs,
        })
    }
}

/// What became of a reference that was asked to take the shorter path.
#[derive(Clone, Copy, Debug, PartialEq, Eq, Drop)]
pub enum Advanced {
    /// It stays as it is.
    Nothing,
    /// It leads to the object or promise that its promise was resolved to.
    Switched,
    /// It leads there too, and its calls wait until those that were made before have arrived.
    Embargoed,
    /// Its promise was broken.
    Broke,
}
