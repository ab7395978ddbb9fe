ghost use Rattle.std.specs.Prelude.{◌≡◌, ◌==◌, ◌≤◌, ◌<◌, ◌+◌, Some, None, IsOk, IsSome, OnOk, OnErr, IfOk, IfErr, option_copied, nat_eq, set, slice_index_or, vec_len, vec_capacity};
ghost use Rattle.std.specs.Option.{option_copied_mut};
ghost use Rattle.std.specs.Borrow.{sem};
ghost use Rattle.std.specs.FinMap as map;
ghost use Rattle.std.specs.HashMap as hash;
ghost use Rattle.std.specs.HashMap.{Updates, spare};
ghost use Rattle.std.specs.Map.{keys_of};
ghost use Rattle.slab.specs.Slab.{entries_from};
ghost use Rattle.vat_tables.specs.Placed.{HasSamePlaces};

use rising_table::grow;
use rpc_machine::rpc_msg::Memory;
use std::alloc::{AllocError, Global};
use std::collections::HashMap;
use std::marker::Model;
use std::mem;

/// Entries under numbers of 64 bits, as many as memory allows: seen by contracts as the entries by number, and how
/// many new ones need no more memory. Each call but `numbers` is constant work, except when memory grows.
///
/// An entry whose number is low stands in the place of its number, and is found at once; the others are hashed.
#[derive(Drop)]
pub struct Numbered<Entry> {
    places: Vec<Option<Entry>>,
    // Those whose numbers have no place.
    hashed: HashMap<u64, Entry>,
    len: usize,
}

impl<Entry> Model for Numbered<Entry> {
    ghost use Rattle.std.specs.Prelude.{◌≡◌};
    ghost use Rattle.std.specs.FinMap as map;
    ghost use Rattle.vat_tables.specs.Table.{Table, table_code};
    ghost use Rattle.vat_tables.specs.Placed.{table_of_both, entries_both, IsApart};

    ghost Value = { Table Entry };

    ghost coded = { table_code Entry.code };

    ghost view = { λ a. table_of_both a.places.items a.hashed a.len };

    ghost invariant = { λ a. IsApart a.places.items a.hashed × (a.len ≡ map.len (entries_both a.places.items a.hashed)) };
}

// The numbers of the places that have an entry.
fn numbers_of_places<Entry>(places: &[Option<Entry>], alloc: Global) -> Result<Vec<u64>, Memory>
    ensures { IfOk result (λ numbers. numbers.items ≡ keys_of (entries_from 0 places.now)) }
{
    let mut numbers = Vec::new(alloc);
    for number in 0..places.len() {
        if places[number].is_some() {
            numbers.push(number as u64)?;
        }
    }
    Ok(numbers)
}

// So many more numbers have a place, if there is room.
fn add_places<Entry>(places: &mut Vec<Option<Entry>>, more: usize)
    requires { vec_len places.old + more ≤ vec_capacity places.old }
    ensures { HasSamePlaces places.old.items places.new.items }
{
    for _ in 0..more {
        places.push_reserved(None);
    }
}

// Takes the entry out that stands at a place, if it has one.
fn take_at<Entry: Drop>(places: &mut Vec<Option<Entry>>, at: usize) -> Option<Entry>
    requires { at < vec_len places.old }
    ensures entry { result ≡ slice_index_or places.old.items at None }
    ensures items { places.new.items ≡ set places.old.items at None }
{
    mem::replace(&mut places[at], None)
}

// Few numbers are hashed, so what is done with these stands apart.
#[cold]
#[inline(never)]
fn get_hashed<Entry>(hashed: &HashMap<u64, Entry>, number: u64) -> Option<&Entry>
    ensures { option_copied result ≡ hash.get nat_eq hashed.now number }
{
    hashed.get(&number)
}

#[cold]
#[inline(never)]
fn add_hashed<Entry: Drop>(
    hashed: &mut HashMap<u64, Entry>,
    number: u64,
    entry: Entry,
) -> Result<(), Entry>
    ensures updates { OnOk result (Updates nat_eq hashed.old hashed.new number (Some entry)) }
    ensures succeeds { 0 < spare hashed.old → IsOk result }
    ensures spare { spare hashed.old ≤ spare hashed.new + 1 }
    ensures back { IfErr result (λ back. back ≡ entry) }
    ensures same { OnErr result (hashed.new.entries ≡ hashed.old.entries) }
{
    match hashed.insert(number, entry) {
        Ok(_) => Ok(()),
        Err(refused) => Err(refused.value.1),
    }
}

#[cold]
#[inline(never)]
fn remove_hashed<Entry>(hashed: &mut HashMap<u64, Entry>, number: u64) -> Option<Entry>
    ensures value { result ≡ hash.get nat_eq hashed.old number }
    ensures updates { Updates nat_eq hashed.old hashed.new number None }
    ensures spare { spare hashed.old ≤ spare hashed.new }
{
    hashed.remove(&number)
}

impl<Entry> Numbered<Entry> {
    ghost use Rattle.vat_tables.specs.Lends.{lends_number};

    /// No entries. Takes no memory.
    pub fn new(alloc: Global) -> Self
        ensures { result.entries ≡ map.empty }
    {
        Numbered {
            places: Vec::new(alloc),
            hashed: HashMap::new(alloc),
            len: 0,
        }
    }

    /// Whether there are no entries. Takes no memory.
    pub fn is_empty(&self) -> bool
        ensures { result ≡ (map.len self.now.entries == 0) }
    {
        self.len == 0
    }

    /// How many entries there are. Takes no memory.
    pub fn len(&self) -> usize
        ensures { result ≡ map.len self.now.entries }
    {
        self.len
    }

    /// The numbers, rising; in memory of their own.
    pub fn numbers(&self, alloc: Global) -> Result<Vec<u64>, Memory>
        ensures { IfOk result (λ numbers. numbers.items ≡ map.keys self.now.entries) }
    {
        let mut numbers = numbers_of_places(&self.places, alloc)?;
        let hashed: Result<Vec<u64>, AllocError> = self.hashed.keys().copied().collect(alloc);
        let mut hashed = hashed?;
        numbers.append(&mut hashed)?;
        numbers.sort_unstable();
        Ok(numbers)
    }

    /// Makes room, so that the next so many `add`s are not refused. `Err` if there was no room and the growth was
    /// refused. The entries stay as they are, and the room does not fall.
    pub fn reserve(&mut self, more: usize) -> Result<(), Memory>
        ensures same { self.new.entries ≡ self.old.entries }
        ensures ok { OnOk result (more ≤ self.new.room) }
        ensures had_room { more ≤ self.old.room → IsOk result }
        ensures keeps_room { self.old.room ≤ self.new.room }
    {
        self.widen(more);
        self.reserve_hashed(more)
    }

    // Gives so many more numbers a place, if none is hashed and there is memory.
    fn widen(&mut self, more: usize)
        ensures { self.new ≡ self.old }
    {
        let Some(wanted) = self.len.checked_add(more) else {
            return;
        };
        if wanted <= self.places.len() {
            return;
        }
        if !self.hashed.is_empty() {
            return;
        }
        let Ok(()) = grow(&mut self.places, more) else {
            return;
        };
        add_places(&mut self.places, more);
    }

    // Makes room for entries whose numbers may have no place.
    fn reserve_hashed(&mut self, more: usize) -> Result<(), Memory>
        ensures same { self.new.entries ≡ self.old.entries }
        ensures ok { OnOk result (more ≤ self.new.room) }
        ensures had_room { more ≤ self.old.room → IsOk result }
        ensures keeps_room { self.old.room ≤ self.new.room }
    {
        let Some(_) = self.len.checked_add(more) else {
            return Err(Memory);
        };
        match self.hashed.reserve(more) {
            Ok(()) => Ok(()),
            Err(_) => Err(Memory),
        }
    }

    /// Puts an entry under a number, which no entry may have. An entry that is refused, since there was no room and the
    /// growth was refused, comes back; the entries then stay as they are.
    pub fn add(&mut self, number: u64, entry: Entry) -> Result<(), Entry>
    where
        Entry: Drop,
        requires { map.get self.old.entries number ≡ None }
        ensures ok { OnOk result (self.new.entries ≡ map.insert self.old.entries number entry) }
        ensures had_room { 0 < self.old.room → IsOk result }
        ensures room { self.old.room ≤ self.new.room + 1 }
        ensures back { IfErr result (λ back. back ≡ entry) }
        ensures same { OnErr result (self.new.entries ≡ self.old.entries) }
    {
        let Some(len) = self.len.checked_add(1) else {
            return Err(entry);
        };
        if number < self.places.len() as u64 {
            self.places[number as usize] = Some(entry);
            self.len = len;
            return Ok(());
        }
        add_hashed(&mut self.hashed, number, entry)?;
        self.len = len;
        Ok(())
    }

    /// The entry with that number. Takes no memory, as do `get_mut`, `set` and `remove`.
    #[inline(always)]
    pub fn get(&self, number: u64) -> Option<&Entry>
        ensures { option_copied result ≡ map.get self.now.entries number }
    {
        if number < self.places.len() as u64 {
            return self.places[number as usize].as_ref();
        }
        get_hashed(&self.hashed, number)
    }

    /// The entry with that number, to be changed in place.
    #[inline(always)]
    pub fn get_mut(&mut self, number: u64) -> Option<&mut Entry>
        ensures* writes_back { sem 𝓛 (lends_number Entry.row self.entry number result) }
        ensures value { option_copied_mut result ≡ map.get self.old.entries number }
    {
        if number < self.places.len() as u64 {
            if self.places[number as usize].is_none() {
                return None;
            }
            return self.places[number as usize].as_mut();
        }
        if get_hashed(&self.hashed, number).is_none() {
            return None;
        }
        self.hashed.get_mut(&number)
    }

    /// Puts another entry in the place of one that must be there.
    pub fn set(&mut self, number: u64, entry: Entry)
    where
        Entry: Drop,
        requires { IsSome (map.get self.old.entries number) }
        ensures { self.new ≡ record self.old { entries = map.insert self.old.entries number entry } }
    {
        let Some(place) = self.get_mut(number) else {
            unreachable!()
        };
        *place = entry;
    }

    /// Takes the entry with that number out; the number is free then.
    pub fn remove(&mut self, number: u64) -> Option<Entry>
    where
        Entry: Drop,
        ensures value { result ≡ map.get self.old.entries number }
        ensures removed { self.new.entries ≡ map.remove self.old.entries number }
        ensures room { self.old.room ≤ self.new.room }
    {
        if number < self.places.len() as u64 {
            let entry = take_at(&mut self.places, number as usize)?;
            self.len -= 1;
            return Some(entry);
        }
        let entry = remove_hashed(&mut self.hashed, number)?;
        self.len -= 1;
        Some(entry)
    }
}
