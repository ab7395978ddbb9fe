ghost use Rattle.std.specs.Prelude.{◌≡◌, [], ◌∷◌, ◌++◌, ◌||◌, List};
ghost use Rattle.rpc_journal.specs.declared.entry.JournalEntry.{JournalEntry as Entry};
ghost use Rattle.rpc_check.specs.Breaches.{acts_after_down};
ghost use Rattle.rpc_check.specs.Kept.{DownsFor, down_of};

use rpc_journal::JournalEntry;
use rpc_msg::Vat;

/// Which vats are down.
#[derive(Drop)]
pub(crate) struct Downs {
    pub(crate) a: bool,
    pub(crate) b: bool,
}

impl Downs {
    pub(crate) fn new() -> Self
        ensures { DownsFor result [] }
    {
        Downs { a: false, b: false }
    }

    fn of(&self, vat: Vat) -> bool
        ensures { result ≡ down_of self.now vat }
    {
        match vat {
            Vat::A => self.a,
            Vat::B => self.b,
        }
    }

    pub(crate) fn any(&self) -> bool
        ensures { result ≡ (self.now.a || self.now.b) }
    {
        self.a || self.b
    }

    /// Whether the entry is of a vat that is down and acts.
    pub(crate) fn acts(&self, entry: &JournalEntry) -> bool
        ensures { (h : List Entry) → DownsFor self.now h → result ≡ acts_after_down h entry.now }
    {
        match entry {
            JournalEntry::Sent(vat, _) => self.of(*vat),
            JournalEntry::Delivered(vat, _) => self.of(*vat),
            JournalEntry::Answered(vat, _, _, _) => self.of(*vat),
            JournalEntry::Ended(vat, _) => self.of(*vat),
            _ => false,
        }
    }

    pub(crate) fn take(&mut self, entry: &JournalEntry)
        ensures { (h : List Entry) → DownsFor self.old h → DownsFor self.new (h ++ entry.now ∷ []) }
    {
        let JournalEntry::Down(vat, _) = entry else {
            return;
        };
        match vat {
            Vat::A => self.a = true,
            Vat::B => self.b = true,
        }
    }
}
