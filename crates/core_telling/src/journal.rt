ghost use Rattle.std.specs.Prelude.{◌≡◌, ◌+◌, ◌<◌, ◌≤◌, [], ◌∷◌, ◌++◌, length, take, OnOk, IfOk};

use rpc_journal::JournalEntry;
use rpc_msg::Memory;
use std::alloc::Global;
use std::marker::Model;

/// The entries for which room is kept: three for each vat to go down.
const KEPT: usize = 6;

/// The journal, with room for more: seen by contracts as its entries, and how many more fit at least.
#[derive(Drop)]
pub struct Journal {
    entries: Vec<JournalEntry>,
}

impl Model for Journal {
    ghost use Rattle.std.specs.Prelude.{ℕ, List, ◌-◌, vec_len, vec_capacity};
    ghost use Rattle.rpc_journal.specs.declared.entry.JournalEntry.{JournalEntry};

    ghost Value = { List JournalEntry × ℕ };

    ghost view = { λ a. (a.entries.items, vec_capacity a.entries - vec_len a.entries) };
}

impl Journal {
    /// No entries, with the room that is kept.
    pub fn new(alloc: Global) -> Result<Self, Memory>
        ensures empty { IfOk result (λ journal. journal.0 ≡ []) }
        ensures room { IfOk result (λ journal. journal.1 ≡ 6) }
    {
        match Vec::with_capacity(alloc, KEPT) {
            Ok(entries) => Ok(Journal { entries }),
            Err(_) => Err(Memory),
        }
    }

    pub fn entries(&self) -> &[JournalEntry]
        ensures { result.now ≡ self.now.0 }
    {
        self.entries.as_slice()
    }

    pub fn len(&self) -> usize
        ensures { result ≡ length self.now.0 }
    {
        self.entries.len()
    }

    /// Makes room for that many more and one, beside the room that is kept.
    pub fn prepare(&mut self, more: usize) -> Result<(), Memory>
        ensures same { self.new.0 ≡ self.old.0 }
        ensures ok { OnOk result (more + 1 + 6 ≤ self.new.1) }
        ensures room { self.old.1 ≤ self.new.1 }
    {
        let room = self.entries.capacity() - self.entries.len();
        if let Some(free) = room.checked_sub(KEPT) {
            if more < free {
                return Ok(());
            }
        }
        self.grow(more)
    }

    #[cold]
    #[inline(never)]
    fn grow(&mut self, more: usize) -> Result<(), Memory>
        ensures same { self.new.0 ≡ self.old.0 }
        ensures ok { OnOk result (more + 1 + 6 ≤ self.new.1) }
        ensures room { self.old.1 ≤ self.new.1 }
    {
        let Some(room) = more.checked_add(1 + KEPT) else {
            return Err(Memory);
        };
        match self.entries.reserve(room) {
            Ok(()) => return Ok(()),
            Err(_) => return Err(Memory),
        }
    }

    /// Puts an entry at the end, if there is room.
    pub fn push(&mut self, entry: JournalEntry)
        requires { 0 < self.old.1 }
        ensures entries { self.new.0 ≡ self.old.0 ++ entry ∷ [] }
        ensures room { self.old.1 ≤ self.new.1 + 1 }
    {
        self.entries.push_reserved(entry);
    }

    /// Takes back all entries but that many, the oldest.
    pub fn truncate(&mut self, len: usize)
        ensures entries { self.new.0 ≡ take len self.old.0 }
        ensures room { self.old.1 ≤ self.new.1 }
    {
        self.entries.truncate(len);
    }

    /// Puts the entries of another at the end, if there is room, and leaves it empty. Takes no memory.
    pub fn append(&mut self, more: &mut Journal)
        requires { length more.old.0 ≤ self.old.1 }
        ensures entries { self.new.0 ≡ self.old.0 ++ more.old.0 }
        ensures room { self.old.1 ≤ self.new.1 + length more.old.0 }
        ensures emptied { more.new.0 ≡ [] }
    {
        match self.entries.append(&mut more.entries) {
            Ok(()) => return,
            Err(_) => unreachable!(),
        }
    }
}
