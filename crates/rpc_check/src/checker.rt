ghost use Rattle.std.specs.Prelude.{◌≡◌, [], ◌∷◌, ◌++◌, ◌+◌, List, IfOk, IsSome, cond, MatchOption};
ghost use Rattle.rpc_journal.specs.declared.entry.JournalEntry.{JournalEntry as Entry};
ghost use Rattle.rpc_check.specs.Breaches.{verdict_of, is_delivered};
ghost use Rattle.rpc_check.specs.Kept.{HasTaken};

use crate::pending::Pending;
use crate::verdict::Verdict;
use rpc_journal::JournalEntry;
use rpc_msg::Memory;
use std::alloc::Global;

/// Reads the entries of a trace one by one. It holds what is open: the calls that were made and not delivered, where
/// the calls of each reference go, and what the messages on their way add to the counts. It holds each list of exports
/// once that a question or an answer handed on, however many messages release it.
#[derive(Drop)]
pub struct Checker {
    pub(crate) pending: Pending,
    pub(crate) number: u64,
    pub(crate) delivered: u64,
    pub(crate) broken: Option<Verdict>,
}

impl Checker {
    /// No entries so far. Takes no memory.
    pub fn new(alloc: Global) -> Self
        ensures { HasTaken result [] }
    {
        Checker {
            pending: Pending::new(alloc),
            number: 0,
            delivered: 0,
            broken: None,
        }
    }

    /// Takes the next entry. The work does not grow with the number of entries except for the depth of trees, nor that
    /// of a true flag with the ids that it releases. That of a `Tables` entry grows with the ids that it says, and with
    /// those that messages on their way name. It grows with those in lists which flags release more often, or less
    /// often, than at the last such entry. `Memory` if a growth was refused, or if entries or counts are more than 64
    /// bits can say.
    pub fn take(mut self, alloc: Global, entry: &JournalEntry) -> Result<Self, Memory>
        ensures { IfOk result (λ new. (h : List Entry) → HasTaken self h → HasTaken new (h ++ entry.now ∷ [])) }
    {
        let Some(number) = self.number.checked_add(1) else {
            return Err(Memory);
        };
        let Some(delivered) = self.delivered.checked_add(deliveries(entry)) else {
            return Err(Memory);
        };
        self.number = number;
        self.delivered = delivered;
        if let Some(_) = self.broken {
            return Ok(self);
        }
        self.broken = self.pending.take(alloc, entry, number)?;
        Ok(self)
    }

    /// What is to be said of the entries so far.
    pub fn verdict(&self) -> Verdict
        ensures { (h : List Entry) → HasTaken self.now h → result ≡ verdict_of h }
    {
        match self.broken {
            Some(verdict) => verdict,
            None => Verdict::Good(self.delivered),
        }
    }
}

fn deliveries(entry: &JournalEntry) -> u64
    ensures { result ≡ cond (is_delivered entry.now) 1 0 }
{
    match entry {
        JournalEntry::Delivered(_, _) => 1,
        _ => 0,
    }
}

/// What is to be said of a trace: the first entry that breaks a law, or how many calls were delivered.
pub fn check(alloc: Global, entries: &[JournalEntry]) -> Result<Verdict, Memory>
    ensures { IfOk result (λ verdict. verdict ≡ verdict_of entries.now) }
{
    let mut checker = Checker::new(alloc);
    for entry in entries {
        checker = checker.take(alloc, entry)?;
    }
    Ok(checker.verdict())
}
