//! A connection that does one thing at a time.

use anyhow::{Result, bail};
use std::alloc::Global;
use vat_connection::{
    CallCommand, Connection, Event, Items, Level, ObjectId, Payload, RefId, TaskId, Vat,
};

/// A call that came, and the reference that came with it, if one did.
#[derive(Clone, Copy, Drop)]
pub(crate) struct Task {
    pub(crate) id: TaskId,
    pub(crate) given: Option<RefId>,
}

/// A connection, and the payloads of its calls and results, whose copies share their bytes: one is null, the other a capability.
#[derive(Drop)]
pub(crate) struct Side {
    pub(crate) connection: Connection,
    null: Payload,
    capability: Payload,
    alloc: Global,
}

impl Side {
    pub(crate) fn new(alloc: Global, vat: Vat, root: Option<ObjectId>) -> Result<Side> {
        let null = Payload::null(alloc)?;
        let capability = Payload::root_capability(alloc)?;
        Ok(Side {
            connection: Connection::new(alloc, vat, Level::One, root)?,
            null,
            capability,
            alloc,
        })
    }

    /// Hands over the bytes that are to be sent.
    pub(crate) fn send(&mut self, to: &mut Side) {
        let bytes = self.connection.outgoing();
        to.connection.received(bytes.as_slice());
    }

    // What is said with a reference, or without.
    fn said(&self, given: Option<RefId>) -> Result<(Payload, Items<RefId>)> {
        match given {
            Some(reference) => Ok((
                self.capability.copy(self.alloc)?,
                Items::one(self.alloc, reference)?,
            )),
            None => Ok((self.null.copy(self.alloc)?, Items::new(self.alloc))),
        }
    }

    pub(crate) fn call(&mut self, reference: RefId, given: Option<RefId>) -> Result<()> {
        let (payload, refs) = self.said(given)?;
        self.connection.call(CallCommand {
            reference,
            interface: 0,
            method: 0,
            payload,
            refs,
        })?;
        Ok(())
    }

    pub(crate) fn answer(&mut self, task: TaskId, given: Option<RefId>) -> Result<()> {
        let (payload, refs) = self.said(given)?;
        self.connection.answer(task, payload, refs)?;
        Ok(())
    }

    /// The call that came.
    pub(crate) fn served(&mut self) -> Result<Task> {
        match self.next()? {
            Event::Served(task) => Ok(Task {
                id: task.task,
                given: task.refs.first().copied(),
            }),
            _ => bail!("no call came"),
        }
    }

    // The next event of a call.
    fn next(&mut self) -> Result<Event> {
        for _ in 0..u64::MAX {
            match self.connection.next_event() {
                Some(Event::Resolved(_) | Event::Lifted(_)) => {}
                Some(Event::Cancelled(_) | Event::Released(_)) => {}
                Some(event) => return Ok(event),
                None => break,
            }
        }
        bail!("nothing came")
    }

    /// Finishes the own call that has ended: the reference that it gave, if it gave one.
    pub(crate) fn ended(&mut self) -> Result<Option<RefId>> {
        match self.next()? {
            Event::Ended(ended) => {
                self.connection.finish(ended.call)?;
                Ok(ended.refs.first().copied())
            }
            _ => bail!("no call has ended"),
        }
    }
}
