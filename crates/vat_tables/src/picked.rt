ghost use Rattle.std.specs.Prelude.{◌≡◌, ◌↔◌, ◌==◌, ◌≤◌, ◌<◌, ◌+◌, All, Some, None, IsTrue, IsOk, IsSome, IfOk, IfErr, OnOk, OnErr, option_copied};
ghost use Rattle.std.specs.Option.{option_copied_mut};
ghost use Rattle.std.specs.Borrow.{sem};
ghost use Rattle.std.specs.FinMap as map;

use rising_table::growth;
use rpc_machine::rpc_msg::Memory;
use slab::Slab;
use std::alloc::Global;
use std::marker::Model;

/// The most keys that a table picks from, so that each key is an id of 32 bits.
const KEY_LIMIT: usize = 4_294_967_296;

/// Entries under keys below 2^32 that the table picks, as many as memory allows: seen by contracts as the entries by
/// key, and how many new ones need no more memory. Each call is constant work, except when memory grows.
#[derive(Drop)]
pub struct Picked<Entry> {
    slab: Slab<Entry>,
}

impl<Entry> Model for Picked<Entry> {
    ghost use Rattle.vat_tables.specs.Table.{Table, table_code, table_of_slab, HasIds};

    ghost Value = { Table Entry };

    ghost coded = { table_code Entry.code };

    ghost view = { λ a. table_of_slab a.slab };

    ghost invariant = { λ a. HasIds a.slab };
}

impl<Entry> Picked<Entry> {
    ghost use Rattle.vat_tables.specs.Lends.{lends_picked, lends_present};

    /// No entries. Takes no memory.
    pub fn new(alloc: Global) -> Self
        ensures { result.entries ≡ map.empty }
    {
        Picked {
            slab: Slab::new(alloc),
        }
    }

    /// Whether there are no entries. Takes no memory.
    pub fn is_empty(&self) -> bool
        ensures { result ≡ (map.len self.now.entries == 0) }
    {
        self.slab.is_empty()
    }

    /// How many entries there are. Takes no memory.
    pub fn len(&self) -> usize
        ensures { result ≡ map.len self.now.entries }
    {
        self.slab.len()
    }

    /// The entries, by rising key. Takes no memory.
    pub fn iter(&self) -> slab::Iter<'_, Entry>
        ensures entries { result ≡ map.entries self.now.entries }
        ensures keys { All (λ entry. entry.0 < 4294967296) result }
    {
        self.slab.iter()
    }

    /// Makes room, so that the next so many `add`s are not refused. `Err` if there was no room and the growth was
    /// refused, or it would take keys past 2^32; there may be less room then. The entries stay as they are.
    pub fn reserve(&mut self, more: usize) -> Result<(), Memory>
        ensures same { self.new.entries ≡ self.old.entries }
        ensures ok { OnOk result (more ≤ self.new.room) }
        ensures had_room { more ≤ self.old.room → IsOk result }
        ensures keeps_room { OnOk result (self.old.room ≤ self.new.room) }
    {
        if more == 0 {
            return Ok(());
        }
        let len = self.slab.len();
        if self.slab.capacity() - len < more {
            self.slab.reserve_exact(growth(len, more))?;
        }
        if self.slab.capacity() > KEY_LIMIT {
            return Err(Memory);
        }
        Ok(())
    }

    /// Puts an entry under a key that was free, and gives the key. An entry that is refused, since there was no room
    /// and the growth was refused, comes back; the entries then stay as they are.
    pub fn add(&mut self, entry: Entry) -> Result<u32, Entry>
        ensures free { IfOk result (λ key. map.get self.old.entries key ≡ None) }
        ensures ok { IfOk result (λ key. self.new.entries ≡ map.insert self.old.entries key entry) }
        ensures had_room { 0 < self.old.room → IsOk result }
        ensures room { self.old.room ≤ self.new.room + 1 }
        ensures back { IfErr result (λ back. back ≡ entry) }
        ensures same { OnErr result (self.new.entries ≡ self.old.entries) }
    {
        let Ok(()) = self.reserve(1) else {
            return Err(entry);
        };
        Ok(self.slab.insert_reserved(entry) as u32)
    }

    /// The entry under that key. Takes no memory, as do `get_mut` and `remove`.
    pub fn get(&self, key: u64) -> Option<&Entry>
        ensures { option_copied result ≡ map.get self.now.entries key }
    {
        self.slab.get(key as usize)
    }

    /// Whether there is an entry under that key. Takes no memory.
    pub fn contains(&self, key: u64) -> bool
        ensures { IsTrue result ↔ IsSome (map.get self.now.entries key) }
    {
        self.slab.contains(key as usize)
    }

    /// The entry under that key, to be changed in place.
    pub fn get_mut(&mut self, key: u64) -> Option<&mut Entry>
        ensures* writes_back { sem 𝓛 (lends_picked Entry.row self.entry key result) }
        ensures value { option_copied_mut result ≡ map.get self.old.entries key }
    {
        if self.contains(key) {
            Some(self.entry_mut(key))
        } else {
            None
        }
    }

    /// The entry under a key that has one, to be changed in place.
    pub fn entry_mut(&mut self, key: u64) -> &mut Entry
        requires { IsSome (map.get self.old.entries key) }
        ensures* writes_back { sem 𝓛 (lends_present Entry.row self.entry key result) }
        ensures value { map.get self.old.entries key ≡ Some result.now }
    {
        &mut self.slab[key as usize]
    }

    /// Takes the entry under that key out; the key is free then.
    pub fn remove(&mut self, key: u64) -> Option<Entry>
        ensures value { result ≡ map.get self.old.entries key }
        ensures removed { self.new.entries ≡ map.remove self.old.entries key }
        ensures room { self.old.room ≤ self.new.room }
    {
        self.slab.try_remove(key as usize)
    }
}
