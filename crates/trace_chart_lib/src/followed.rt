use crate::options::Options;
use rpc_journal::JournalEntry;
use rpc_msg::{CallId, Memory, TaskId, Vat};
use std::alloc::Global;
use std::collections::BTreeSet;

/// The calls through the reference that stands out, under the names that applications have for them.
#[derive(Drop)]
pub(crate) struct Followed {
    /// Of the application that made them.
    calls: BTreeSet<(Vat, CallId)>,
    /// Of the application that they reached.
    tasks: BTreeSet<(Vat, TaskId)>,
}

impl Followed {
    /// No call yet.
    pub(crate) fn new(alloc: Global) -> Self {
        Followed {
            calls: BTreeSet::new(alloc),
            tasks: BTreeSet::new(alloc),
        }
    }

    /// Learns the names that an entry gives.
    pub(crate) fn learn(&mut self, options: &Options, entry: &JournalEntry) -> Result<(), Memory> {
        match entry {
            JournalEntry::Made(vat, made) if options.marks(*vat, made.reference) => {
                self.calls.insert((*vat, made.call))?;
            }
            JournalEntry::Delivered(vat, delivery) if options.marks_call(&delivery.stamp) => {
                self.tasks.insert((*vat, delivery.task))?;
            }
            _ => {}
        }
        Ok(())
    }

    /// Forgets what no later entry names.
    pub(crate) fn forget(&mut self, entry: &JournalEntry) {
        match entry {
            JournalEntry::Finished(vat, call) => {
                let _was = self.calls.remove(&(*vat, *call));
            }
            JournalEntry::Answered(vat, task, ..) => {
                let _was = self.tasks.remove(&(*vat, *task));
            }
            _ => {}
        }
    }

    /// Whether an entry is about one of the calls by its name.
    pub(crate) fn has(&self, entry: &JournalEntry) -> bool {
        match entry {
            JournalEntry::Ended(vat, ended) => self.calls.contains(&(*vat, ended.call)),
            JournalEntry::Finished(vat, call) => self.calls.contains(&(*vat, *call)),
            JournalEntry::Answered(vat, task, ..) => self.tasks.contains(&(*vat, *task)),
            _ => false,
        }
    }
}
