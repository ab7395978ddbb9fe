ghost use Rattle.std.specs.Prelude.{◌≡◌, ◌==◌, ◌≤◌, ◌<◌, ◌+◌, ◌-◌, ℕ, [], ◌∷◌, ◌++◌, length, slice_index_or, set, filter, is_some, Option, Some, None, IsOk, IsTrue, IfOk, OnOk, OnErr, IfErr, MatchOption, option_copied, vec_len, vec_capacity};
ghost use Rattle.std.specs.Option.{option_copied_mut};
ghost use Rattle.std.specs.Borrow.{sem};
ghost use Rattle.std.specs.FinMap as map;
ghost use Rattle.std.specs.FinMap.{put};
ghost use Rattle.std.specs.Ordering.{nat_cmp};
ghost use Rattle.rising_table.specs.Rising.{IsRising, IsAt, IsGapFor, IsAbsent, AllBelow, present, number_at, entry_at};

use crate::capacity::grow;
use rpc_msg::Memory;
use std::alloc::Global;
use std::marker::Model;
use std::mem;

/// Entries under numbers of 64 bits that rise as they are given out, as many as memory allows: seen by contracts as the
/// entries by number, and how many new ones need no more memory.
///
/// They stand by rising number, and a number is found by its distance from the last one: at once, if every number
/// between has its place yet. An entry that is taken out leaves its place, until that is the last one or room is made.
#[derive(Drop)]
pub struct Rising<Entry> {
    places: Vec<(u64, Option<Entry>)>,
    // How many places have an entry.
    len: usize,
}

impl<Entry> Model for Rising<Entry> {
    ghost use Rattle.std.specs.Prelude.{◌≡◌, ◌-◌, vec_len, vec_capacity};
    ghost use Rattle.std.specs.FinMap as map;
    ghost use Rattle.rising_table.specs.Table.{Table, table_code};
    ghost use Rattle.std.specs.Ordering.{nat_cmp};
    ghost use Rattle.rising_table.specs.Rising.{IsRising, present, table_of_places};

    ghost Value = { Table Entry };

    ghost coded = { table_code Entry.code };

    ghost view = { λ a. table_of_places a.places.items (vec_capacity a.places - vec_len a.places) };

    ghost invariant = { λ a. IsRising a.places.items × (a.len ≡ map.len (map.from_entries {R = nat_cmp} (present a.places.items))) };
}

/// Where a number stands, or where it would.
fn search<Entry>(places: &[(u64, Option<Entry>)], number: u64) -> Result<usize, usize>
    requires { IsRising places.now }
    ensures found { IfOk result (IsAt places.now number) }
    ensures absent { IfErr result (IsGapFor places.now number) }
{
    places.binary_search_by_key(&number, |place| place.0)
}

// Where a number stands that is no greater than the last, if it does.
#[cold]
#[inline(never)]
fn find_behind<Entry>(places: &[(u64, Option<Entry>)], number: u64) -> Option<usize>
    requires { IsRising places.now }
    ensures { MatchOption result (IsAbsent places.now number) (IsAt places.now number) }
{
    match search(places, number) {
        Ok(at) => Some(at),
        Err(_) => None,
    }
}

/// Where a number stands, if it does.
#[inline(always)]
fn position<Entry>(places: &[(u64, Option<Entry>)], number: u64) -> Option<usize>
    requires { IsRising places.now }
    ensures { MatchOption result (IsAbsent places.now number) (IsAt places.now number) }
{
    let (last, _) = places.last()?;
    let behind = last.checked_sub(number)?;
    let end = places.len() - 1;
    if behind <= end as u64 {
        let guess = end - behind as usize;
        if places[guess].0 == number {
            return Some(guess);
        }
    }
    find_behind(places, number)
}

// Gives a number its entry, in its place between the others, if there is room.
#[cold]
#[inline(never)]
fn put_between<Entry: Drop>(places: &mut Vec<(u64, Option<Entry>)>, number: u64, entry: Entry)
    requires rising { IsRising places.old.items }
    requires room { vec_len places.old < vec_capacity places.old }
    ensures items { places.new.items ≡ put nat_cmp number (Some entry) places.old.items }
    ensures len { vec_len places.new ≤ vec_len places.old + 1 }
    ensures capacity { vec_capacity places.old ≤ vec_capacity places.new }
{
    match search(places, number) {
        Ok(at) => places[at] = (number, Some(entry)),
        Err(at) => {
            let Ok(()) = places.insert(at, (number, Some(entry))) else {
                unreachable!()
            };
        }
    }
}

// Gives a number its entry, if there is room: at once, if it is greater than all others.
#[inline(always)]
fn put<Entry: Drop>(places: &mut Vec<(u64, Option<Entry>)>, number: u64, entry: Entry)
    requires rising { IsRising places.old.items }
    requires room { vec_len places.old < vec_capacity places.old }
    ensures items { places.new.items ≡ put nat_cmp number (Some entry) places.old.items }
    ensures len { vec_len places.new ≤ vec_len places.old + 1 }
    ensures capacity { vec_capacity places.old ≤ vec_capacity places.new }
{
    if is_below(places, number) {
        places.push_reserved((number, Some(entry)));
    } else {
        put_between(places, number, entry);
    }
}

// Whether all numbers are below this one.
fn is_below<Entry>(places: &[(u64, Option<Entry>)], number: u64) -> bool
    requires { IsRising places.now }
    ensures { IsTrue result → AllBelow number places.now }
{
    match places.last() {
        Some((last, _)) => *last < number,
        None => true,
    }
}

// Takes the entry out that stands at a place, if it has one.
fn take_at<Entry: Drop>(places: &mut Vec<(u64, Option<Entry>)>, at: usize) -> Option<Entry>
    requires { at < vec_len places.old }
    ensures entry { (d : ℕ × Option Entry) → result ≡ entry_at places.old.items at d }
    ensures items { (d : ℕ × Option Entry) → places.new.items ≡ set places.old.items at (number_at places.old.items at d, None) }
    ensures len { vec_len places.new ≡ vec_len places.old }
    ensures capacity { vec_capacity places.new ≡ vec_capacity places.old }
{
    mem::replace(&mut places[at].1, None)
}

// Whether the last place has no entry.
fn ends_empty<Entry>(places: &[(u64, Option<Entry>)]) -> bool
    ensures some { IsTrue result → 0 < length places.now }
    ensures empty { IsTrue result → (d : ℕ × Option Entry) → entry_at places.now (length places.now - 1) d ≡ None }
{
    match places.last() {
        Some(last) => last.1.is_none(),
        None => false,
    }
}

fn drop_last<Entry: Drop>(places: &mut Vec<(u64, Option<Entry>)>)
    requires { 0 < vec_len places.old }
    ensures items { (d : ℕ × Option Entry) → places.old.items ≡ places.new.items ++ slice_index_or places.old.items (vec_len places.old - 1) d ∷ [] }
    ensures len { vec_len places.new + 1 ≡ vec_len places.old }
    ensures capacity { vec_capacity places.new ≡ vec_capacity places.old }
{
    let _ = places.pop();
}

// Drops the places at the end that have no entry.
fn forget_last<Entry: Drop>(places: &mut Vec<(u64, Option<Entry>)>)
    requires { IsRising places.old.items }
    ensures rising { IsRising places.new.items }
    ensures present { present places.new.items ≡ present places.old.items }
    ensures len { vec_len places.new ≤ vec_len places.old }
    ensures capacity { vec_capacity places.new ≡ vec_capacity places.old }
{
    while ends_empty(places) {
        drop_last(places);
    }
}

// Drops the places that have no entry.
fn forget_gone<Entry: Drop>(places: &mut Vec<(u64, Option<Entry>)>)
    ensures items { places.new.items ≡ filter (λ place. is_some place.1) places.old.items }
    ensures len { vec_len places.new ≤ vec_len places.old }
    ensures capacity { vec_capacity places.new ≡ vec_capacity places.old }
{
    places.retain(|place| place.1.is_some());
}

impl<Entry> Rising<Entry> {
    ghost use Rattle.rising_table.specs.Lends.{lends_rising};

    /// No entries. Takes no memory.
    pub fn new(alloc: Global) -> Self
        ensures { result.entries ≡ map.empty }
    {
        Rising {
            places: Vec::new(alloc),
            len: 0,
        }
    }

    /// Whether there are no entries. Takes no memory.
    pub fn is_empty(&self) -> bool
        ensures { result ≡ (map.len self.now.entries == 0) }
    {
        self.len == 0
    }

    /// Makes room, so that the next so many `add`s are not refused. `Err` if there was no room and the growth was
    /// refused. The entries stay as they are, and the room does not fall.
    pub fn reserve(&mut self, more: usize) -> Result<(), Memory>
    where
        Entry: Drop,
        ensures same { self.new.entries ≡ self.old.entries }
        ensures ok { OnOk result (more ≤ self.new.room) }
        ensures had_room { more ≤ self.old.room → IsOk result }
        ensures keeps_room { self.old.room ≤ self.new.room }
    {
        if more <= self.places.capacity() - self.places.len() {
            return Ok(());
        }
        if self.len <= self.places.len() / 2 {
            forget_gone(&mut self.places);
        }
        grow(&mut self.places, more)
    }

    /// Puts an entry under a number, which no entry may have. An entry that is refused, since there was no room and the
    /// growth was refused, comes back; the entries then stay as they are. Constant work if the number is greater than
    /// all others, except when memory grows.
    pub fn add(&mut self, number: u64, entry: Entry) -> Result<(), Entry>
    where
        Entry: Drop,
        requires { map.get self.old.entries number ≡ None }
        ensures ok { OnOk result (self.new.entries ≡ map.insert self.old.entries number entry) }
        ensures had_room { 0 < self.old.room → IsOk result }
        ensures room { self.old.room ≤ self.new.room + 1 }
        ensures back { IfErr result (λ back. back ≡ entry) }
        ensures same { OnErr result (self.new.entries ≡ self.old.entries) }
    {
        let Ok(()) = self.reserve(1) else {
            return Err(entry);
        };
        put(&mut self.places, number, entry);
        self.len += 1;
        Ok(())
    }

    /// The entry with that number. Takes no memory, as do `get_mut` and `remove`.
    #[inline(always)]
    pub fn get(&self, number: u64) -> Option<&Entry>
        ensures { option_copied result ≡ map.get self.now.entries number }
    {
        let at = position(&self.places, number)?;
        self.places[at].1.as_ref()
    }

    /// The entry with that number, to be changed in place.
    pub fn get_mut(&mut self, number: u64) -> Option<&mut Entry>
        ensures* writes_back { sem 𝓛 (lends_rising Entry.row self.entry number result) }
        ensures value { option_copied_mut result ≡ map.get self.old.entries number }
    {
        let at = position(&self.places, number)?;
        if self.places[at].1.is_none() {
            return None;
        }
        self.places[at].1.as_mut()
    }

    /// Takes the entry with that number out; the number is free then.
    pub fn remove(&mut self, number: u64) -> Option<Entry>
    where
        Entry: Drop,
        ensures value { result ≡ map.get self.old.entries number }
        ensures removed { self.new.entries ≡ map.remove self.old.entries number }
        ensures room { self.old.room ≤ self.new.room }
    {
        let at = position(&self.places, number)?;
        let entry = take_at(&mut self.places, at)?;
        self.len -= 1;
        forget_last(&mut self.places);
        Some(entry)
    }
}
