ghost use Rattle.std.specs.Prelude.{◌≡◌, ◌+◌, ◌≤◌, ◌<◌, length, IsOk, IfOk, IfErr, IsTrue, OnOk, OnErr};
ghost use Rattle.std.specs.FinMap as map;
ghost use Rattle.core_outbox.specs.Rising.{IsAt, IsGapFor};

use rpc_msg::Memory;
use std::alloc::Global;
use std::marker::Model;

/// What is said of some ids, one of each, by rising id: seen as a map, and how many more fit without memory.
///
/// It is kept in order as it grows. A step says few, and mostly in one order, so an entry finds its place at an end or near
/// it, no sort has to follow, and one that is said again is found.
#[derive(Drop)]
pub(crate) struct Rising<Entry> {
    entries: Vec<(u32, Entry)>,
}

impl<Entry> Model for Rising<Entry> {
    ghost use Rattle.std.specs.Prelude.{ℕ, ◌-◌, vec_len, vec_capacity};
    ghost use Rattle.std.specs.FinMap as map;
    ghost use Rattle.std.specs.Coded.{coded×, coded_ℕ};
    ghost use Rattle.finite_maps.specs.Tally.{Map};
    ghost use Rattle.rpc_machine.specs.State.{map_code};
    ghost use Rattle.core_outbox.specs.Rising.{IsRising};

    ghost Value = { Map Entry × ℕ };

    ghost coded = { coded× (map_code Entry.code) coded_ℕ };

    ghost view = { λ a. (map.from_sorted a.entries.items, vec_capacity a.entries - vec_len a.entries) };

    ghost invariant = { λ a. IsRising a.entries.items };
}

impl<Entry> Rising<Entry> {
    /// Nothing. Takes no memory.
    pub(crate) fn new(alloc: Global) -> Self
        ensures none { result.0 ≡ map.empty }
        ensures len { map.len result.0 ≡ 0 }
    {
        Rising {
            entries: Vec::new(alloc),
        }
    }

    /// How many ids there are.
    pub(crate) fn len(&self) -> usize
        ensures { result ≡ map.len self.now.0 }
    {
        self.entries.len()
    }

    /// Whether there are none.
    pub(crate) fn is_empty(&self) -> bool
        ensures { IsTrue result → self.now.0 ≡ map.empty }
    {
        self.entries.is_empty()
    }

    /// The entries, by rising id.
    pub(crate) fn entries(&self) -> &[(u32, Entry)]
        ensures all { result.now ≡ map.entries self.now.0 }
        ensures len { length result.now ≡ map.len self.now.0 }
    {
        &self.entries
    }

    /// Makes room for so many more. Refused only if the growth was.
    pub(crate) fn reserve(&mut self, more: usize) -> Result<(), Memory>
        ensures same { self.new.0 ≡ self.old.0 }
        ensures ok { OnOk result (more ≤ self.new.1) }
        ensures keeps_room { self.old.1 ≤ self.new.1 }
        ensures had_room { more ≤ self.old.1 → IsOk result }
    {
        match self.entries.reserve(more) {
            Ok(()) => Ok(()),
            Err(_) => Err(Memory),
        }
    }

    /// Nothing is left. The memory is kept.
    pub(crate) fn clear(&mut self)
    where
        Entry: Drop,
        ensures none { self.new.0 ≡ map.empty }
        ensures len { map.len self.new.0 ≡ 0 }
        ensures room { self.old.1 ≤ self.new.1 }
    {
        self.entries.clear();
    }
}

impl<Entry: Copy> Rising<Entry> {
    /// Says this of an id, in place of what was said of it before. Takes no memory.
    pub(crate) fn put(&mut self, id: u32, entry: Entry)
        requires { 0 < self.old.1 }
        ensures put { self.new.0 ≡ map.insert self.old.0 id entry }
        ensures len { map.len self.new.0 ≤ map.len self.old.0 + 1 }
        ensures room { self.old.1 ≤ self.new.1 + 1 }
    {
        match self.search(id) {
            Ok(at) => self.entries[at] = (id, entry),
            Err(at) => {
                let Ok(()) = self.entries.insert(at, (id, entry)) else {
                    unreachable!()
                };
            }
        }
    }

    /// Where the id stands, or where it would.
    fn search(&self, id: u32) -> Result<usize, usize>
        ensures found { IfOk result (IsAt (map.entries self.now.0) id) }
        ensures absent { IfErr result (IsGapFor (map.entries self.now.0) id) }
    {
        self.entries.binary_search_by_key(&id, |&(id, _)| id)
    }
}
