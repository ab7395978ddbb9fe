ghost use Rattle.std.specs.Prelude.{◌≡◌, ◌↔◌, Some, true, IsTrue, IfSome, IfNone, OnOk, OnErr};
ghost use Rattle.std.specs.Ordering.{nat_cmp};
ghost use Rattle.std.specs.BTreeMap as tree;
ghost use Rattle.std.specs.BTreeSet as keys;
ghost use Rattle.script_language.specs.OpenWork.{IsClosed, stamp_under};

use rpc_machine::Command;
use rpc_msg::{CallId, Memory, Stamp, TaskId};
use std::alloc::Global;
use std::collections::{BTreeMap, BTreeSet};

/// What is not over yet at a vat that plays a script: the tasks that were not answered, each with the stamp of its call, and
/// the calls that have no outcome and were not finished. Both by their numbers.
#[derive(Drop)]
pub struct OpenWork {
    tasks: BTreeMap<u64, Stamp>,
    calls: BTreeSet<u64>,
}

/// What is not open any more once a command is done.
#[derive(Clone, Copy, Debug, PartialEq, Eq, Drop)]
pub enum Closes {
    Task(TaskId),
    Call(CallId),
    Nothing,
}

impl Closes {
    ghost use Rattle.std.specs.Prelude.{◌≡◌};
    ghost use Rattle.script_language.specs.OpenWork.{closed_by};

    /// The task that a command answers, or the call that it finishes.
    pub fn of(command: &Command) -> Closes
        ensures { result ≡ closed_by command.now }
    {
        match command {
            Command::Answer(task, _, _) => Closes::Task(*task),
            Command::Fail(task, _) => Closes::Task(*task),
            Command::Finish(call) => Closes::Call(*call),
            _ => Closes::Nothing,
        }
    }
}

impl OpenWork {
    /// Nothing is open. Takes no memory.
    pub fn new(alloc: Global) -> OpenWork
        ensures tasks { tree.IsEmpty result.tasks }
        ensures calls { keys.IsEmpty result.calls }
    {
        OpenWork {
            tasks: BTreeMap::new(alloc),
            calls: BTreeSet::new(alloc),
        }
    }

    /// The oldest open task, and the stamp of its call.
    pub fn oldest_task(&self) -> Option<(TaskId, Stamp)>
        ensures found { IfSome result (λ found. tree.get nat_cmp self.now.tasks found.0.0 ≡ Some found.1) }
        ensures oldest { IfSome result (λ found. tree.IsLowerBound nat_cmp self.now.tasks found.0.0) }
        ensures none { IfNone result (tree.btree_map_len self.now.tasks ≡ 0) }
    {
        match self.tasks.first_key_value() {
            Some((task, stamp)) => Some((TaskId(*task), *stamp)),
            None => None,
        }
    }

    /// The stamp of the open task that is closed.
    pub fn stamp_of(&self, closes: Closes) -> Option<Stamp>
        ensures { result ≡ stamp_under self.now.tasks closes }
    {
        match closes {
            Closes::Task(task) => self.tasks.get(&task.0).copied(),
            Closes::Call(_) => None,
            Closes::Nothing => None,
        }
    }

    /// A task is open, which a call with that stamp brought. `Memory` if a growth was refused; nothing is changed then.
    pub fn add_task(&mut self, task: TaskId, stamp: Stamp) -> Result<(), Memory>
        ensures ok { OnOk result (tree.Updates nat_cmp self.old.tasks self.new.tasks task.0 (Some stamp)) }
        ensures err { OnErr result (tree.IsUnchanged self.old.tasks self.new.tasks) }
        ensures calls { self.new.calls ≡ self.old.calls }
    {
        match self.tasks.insert(task.0, stamp) {
            Ok(_) => return Ok(()),
            Err(_) => return Err(Memory),
        }
    }

    /// A call is open. `Memory` if a growth was refused; nothing is changed then.
    pub fn add_call(&mut self, call: CallId) -> Result<(), Memory>
        ensures ok { OnOk result (keys.Updates nat_cmp self.old.calls self.new.calls call.0 true) }
        ensures err { OnErr result (keys.IsUnchanged self.old.calls self.new.calls) }
        ensures tasks { self.new.tasks ≡ self.old.tasks }
    {
        match self.calls.insert(call.0) {
            Ok(_) => return Ok(()),
            Err(_) => return Err(Memory),
        }
    }

    /// That is not open any more.
    pub fn close(&mut self, closes: Closes)
        ensures { IsClosed closes self.old.tasks self.old.calls self.new.tasks self.new.calls }
    {
        match closes {
            Closes::Task(task) => {
                self.tasks.remove(&task.0);
            }
            Closes::Call(call) => {
                self.calls.remove(&call.0);
            }
            Closes::Nothing => {}
        }
    }

    /// Whether no call is open.
    pub fn calls_are_over(&self) -> bool
        ensures { IsTrue result ↔ (keys.btree_set_len self.now.calls ≡ 0) }
    {
        self.calls.is_empty()
    }
}
