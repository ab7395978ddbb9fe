//! What the application of a vat holds.

use crate::draws::Draws;
use anyhow::Result;
use rpc_machine::{Command, Effects, Granted};
use rpc_msg::{CallId, PromiseId, RefId, TaskId};
use std::alloc::Global;

/// What a command lets go, if it is obeyed.
#[derive(Clone, Copy, Drop)]
pub enum Gone {
    Nothing,
    Reference(RefId),
    Call(CallId),
    Promise(PromiseId),
    Task(TaskId),
}

impl Gone {
    pub fn of(command: &Command) -> Gone {
        match command {
            Command::DropRef(reference) => Gone::Reference(*reference),
            Command::Finish(call) => Gone::Call(*call),
            Command::Resolve(promise, _) | Command::Reject(promise, _) => Gone::Promise(*promise),
            Command::Answer(task, _, _) | Command::Fail(task, _) => Gone::Task(*task),
            _ => Gone::Nothing,
        }
    }
}

#[derive(Drop)]
pub struct Application {
    pub refs: Vec<RefId>,
    pub calls: Vec<CallId>,
    pub promises: Vec<PromiseId>,
    pub tasks: Vec<TaskId>,
}

impl Application {
    pub fn new(alloc: Global) -> Application {
        Application {
            refs: Vec::new(alloc),
            calls: Vec::new(alloc),
            promises: Vec::new(alloc),
            tasks: Vec::new(alloc),
        }
    }

    /// Keeps what a command gave.
    pub fn keep(&mut self, granted: Granted) -> Result<()> {
        match granted {
            Granted::Done | Granted::Advanced(_) => {}
            Granted::Reference(reference) => self.refs.push(reference)?,
            Granted::Call(call) => self.calls.push(call)?,
            Granted::Promise(promise, reference) => {
                self.promises.push(promise)?;
                self.refs.push(reference)?;
            }
        }
        Ok(())
    }

    /// Keeps what came: tasks, and references with tasks and with calls that have ended.
    pub fn note(&mut self, effects: &Effects) -> Result<()> {
        for delivery in &effects.deliveries {
            self.tasks.push(delivery.task)?;
            self.refs.extend_from_slice(&delivery.refs)?;
        }
        for ended in &effects.answers {
            self.refs.extend_from_slice(&ended.refs)?;
        }
        Ok(())
    }

    pub fn forget(&mut self, gone: Gone) {
        match gone {
            Gone::Nothing => {}
            Gone::Reference(reference) => self.refs.retain(|other| *other != reference),
            Gone::Call(call) => self.calls.retain(|other| *other != call),
            Gone::Promise(promise) => self.promises.retain(|other| *other != promise),
            Gone::Task(task) => self.tasks.retain(|other| *other != task),
        }
    }
}

/// One of them.
pub fn pick<T: Copy>(draws: &mut Draws, from: &[T]) -> Option<T> {
    let at = draws.below(from.len())?;
    from.get(at).copied()
}
