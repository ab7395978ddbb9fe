ghost use Rattle.std.specs.Prelude.{◌≡◌, [], ◌∷◌, ◌++◌, List, None, IfOk, OnOk, suc, length};
ghost use Rattle.rpc_journal.specs.declared.entry.JournalEntry.{JournalEntry as Entry};
ghost use Rattle.rpc_check.specs.Breaches.{breach, miscounts};
ghost use Rattle.rpc_check.specs.Kept.{IsPending};

use crate::calls::Calls;
use crate::downs::Downs;
use crate::verdict::Verdict;
use crate::ways::Ways;
use rpc_journal::JournalEntry;
use rpc_msg::Memory;
use std::alloc::Global;

/// What is open in a trace of which no entry breaks a law so far.
#[derive(Drop)]
pub(crate) struct Pending {
    pub(crate) calls: Calls,
    pub(crate) ways: Ways,
    pub(crate) downs: Downs,
}

impl Pending {
    pub(crate) fn new(alloc: Global) -> Self
        ensures { IsPending result [] }
    {
        Pending {
            calls: Calls::new(alloc),
            ways: Ways::new(alloc),
            downs: Downs::new(),
        }
    }

    fn miscounts(&mut self, alloc: Global, entry: &JournalEntry) -> Result<bool, Memory>
        ensures wrong { IfOk result (λ wrong. (h : List Entry) → IsPending self.old h → wrong ≡ miscounts h entry.now) }
        ensures rest { OnOk result ((h : List Entry) → IsPending self.old h → IsPending self.new h) }
    {
        let JournalEntry::Tables(a, b) = entry else {
            return Ok(false);
        };
        if self.downs.any() {
            return Ok(false);
        }
        self.ways.count()?;
        let fits = self.ways.agree(alloc, a, b)?;
        Ok(!fits)
    }

    /// Takes the entry of that number; what it breaks. If it breaks a law, nothing is known of the rest.
    pub(crate) fn take(
        &mut self,
        alloc: Global,
        entry: &JournalEntry,
        number: u64,
    ) -> Result<Option<Verdict>, Memory>
        ensures found { IfOk result (λ found. (h : List Entry) → IsPending self.old h → number ≡ suc (length h) → found ≡ breach h entry.now) }
        ensures rest { IfOk result (λ found. found ≡ None → (h : List Entry) → IsPending self.old h → IsPending self.new (h ++ entry.now ∷ [])) }
    {
        let miscounts = self.miscounts(alloc, entry)?;
        if !self.calls.take(alloc, entry)? {
            return Ok(Some(Verdict::Order(number)));
        }
        if !self.ways.take(alloc, entry)? {
            return Ok(Some(Verdict::Unmatched(number)));
        }
        if self.downs.acts(entry) {
            return Ok(Some(Verdict::AfterDown(number)));
        }
        if miscounts {
            return Ok(Some(Verdict::Count(number)));
        }
        self.downs.take(entry);
        Ok(None)
    }
}
