//! A vat and the objects that it serves.

use crate::objects::Objects;
use crate::registry::REGISTRY;
use crate::results::Results;
use anyhow::Result;
use std::alloc::Global;
use vat::{
    CallId, Command, Delivery, Ended, Exception, ExceptionKind, Items, Level, ObjectId, Outcome,
    Payload, RefId, TaskId, Text, Vat,
};
use vat_connection::{Connection, Event, Limits};

/// What a call is answered with, or that it is later, or not at all.
#[derive(Drop)]
pub enum Reply {
    /// With these results, and the references that go with them, which are let go of then.
    Now(Payload, Items<RefId>),
    /// With the outcome of a call that the service made.
    Later,
    NoSuchMethod,
}

impl Reply {
    pub fn now(results: Results) -> Result<Reply> {
        let (payload, refs) = results.into_payload()?;
        Ok(Reply::Now(payload, refs))
    }
}

/// A vat and the objects that it serves.
#[derive(Drop)]
pub struct Service {
    pub vat: Connection,
    pub(crate) objects: Objects,
    /// The calls that the service made, each with the task that is answered as it ends.
    pub(crate) waiting: Vec<(CallId, TaskId)>,
    /// How much may be held of the client.
    pub(crate) limits: Limits,
    pub(crate) alloc: Global,
}

impl Service {
    /// A new service, of whose client nothing has come, and of whom no more is held than that.
    pub fn new(alloc: Global, limits: Limits) -> Result<Service> {
        let mut vat = Connection::new(alloc, Vat::B, Level::One, Some(ObjectId(0)))?;
        vat.set_limits(limits);
        Ok(Service {
            vat,
            limits,
            objects: Objects::new(alloc)?,
            waiting: Vec::new(alloc),
            alloc,
        })
    }

    /// Serves what was called, and passes on what own calls gave, until there is nothing left to do. Says whether there was anything.
    pub fn work(&mut self) -> Result<bool> {
        let mut had_events = false;
        for _ in 0..u64::MAX {
            match self.vat.next_event() {
                Some(Event::Served(call)) => self.serve(call)?,
                Some(Event::Ended(ended)) => self.pass_on(ended)?,
                Some(Event::Released(object)) => self.objects.release(object),
                Some(_other) => {}
                None => break,
            }
            had_events = true;
        }
        Ok(had_events)
    }

    // Answers a call, unless that is later, and lets go of what came with it. A vat that is down answers nothing.
    fn serve(&mut self, call: Delivery) -> Result<()> {
        if self.vat.core().down().is_some() {
            return Ok(());
        }
        match self.reply(&call) {
            Ok(Reply::Now(payload, refs)) => self.answer(call.task, payload, refs)?,
            Ok(Reply::Later) => {}
            Ok(Reply::NoSuchMethod) => self.fail(
                call.task,
                ExceptionKind::Unimplemented,
                "no such method",
            )?,
            Err(error) => {
                let reason = format!(in self.alloc; "{error}")?;
                self.fail(call.task, ExceptionKind::Failed, reason.as_str())?;
            }
        }
        self.let_go(&call.refs)
    }

    fn reply(&mut self, call: &Delivery) -> Result<Reply> {
        let view = call.payload.view();
        let params = view.root();
        if call.interface == REGISTRY {
            return self.serve_registry(call, &params);
        }
        match self.objects.serve(call, &params)? {
            Some(results) => Reply::now(results),
            None => Ok(Reply::NoSuchMethod),
        }
    }

    // Results that are too large for a message are an exception.
    fn answer(&mut self, task: TaskId, payload: Payload, refs: Items<RefId>) -> Result<()> {
        let given = refs.copy(self.alloc)?;
        if let Err(refused) = self.vat.command(Command::Answer(task, payload, refs)) {
            let reason = format!(in self.alloc; "{refused}")?;
            self.fail(task, ExceptionKind::Failed, reason.as_str())?;
        }
        self.let_go(&given)
    }

    fn fail(&mut self, task: TaskId, kind: ExceptionKind, reason: &str) -> Result<()> {
        let reason = Text::new(self.alloc, reason)?;
        self.vat
            .command(Command::Fail(task, Exception { kind, reason }))?;
        Ok(())
    }

    // An own call has ended: the task that waits for it has the same outcome.
    fn pass_on(&mut self, ended: Ended) -> Result<()> {
        if self.vat.core().down().is_some() {
            return Ok(());
        }
        let Ended {
            call,
            outcome,
            refs,
        } = ended;
        match (self.waiting_for(call), outcome) {
            (Some(task), Outcome::Results(payload)) => self.answer(task, payload, refs)?,
            (Some(task), Outcome::Exception(exception)) => {
                self.vat.command(Command::Fail(task, exception))?;
            }
            (None, _) => self.let_go(&refs)?,
        }
        self.vat.command(Command::Finish(call))?;
        Ok(())
    }

    // The task that waits for a call, which is taken out.
    fn waiting_for(&mut self, call: CallId) -> Option<TaskId> {
        let at = self.waiting.iter().position(|waiting| waiting.0 == call)?;
        let (_, task) = self.waiting.swap_remove(at);
        Some(task)
    }

    pub(crate) fn let_go(&mut self, refs: &[RefId]) -> Result<()> {
        for reference in refs {
            self.vat.command(Command::DropRef(*reference))?;
        }
        Ok(())
    }
}
