ghost use Rattle.std.specs.Prelude.{◌≡◌, ◌==◌, ◌+◌, ◌-◌, ◌^◌, ◌≤◌, ◌<◌, max, None, IsOk, OnOk, OnErr};
ghost use Rattle.std.specs.FinMap as map;
ghost use Rattle.core_refcounts.specs.Names.{times, raised, lowered, noting, nothing_counted, roomier, with_rooms, TakesNoted};

use rpc_msg::Memory;
use std::alloc::Global;
use std::marker::Model;
use vat_tables::Numbered;

/// Counts by key, seen as a map without zeros, and the keys that are noted: those whose count fell to zero, and those
/// that were noted besides. A key that has a count has its place among the noted ones, so `lower` takes no memory.
#[derive(Drop)]
pub struct Counter {
    numbers: Numbered<u64>,
    noted: Vec<u64>,
    // So many keys more can be noted, beside those that have a count, with no more memory.
    spare: usize,
    // So many new keys can be counted with no more memory.
    room: usize,
}

impl Model for Counter {
    ghost use Rattle.std.specs.Vec.{vec_len, vec_capacity};
    ghost use Rattle.core_refcounts.specs.Names.{Counted, counted_code};
    ghost use Rattle.core_refcounts.specs.Places.{HasPlaces};

    ghost Value = { Counted };

    ghost coded = { counted_code };

    ghost view = { λ a. record { counts = a.numbers.entries; noted = a.noted.items; spare = a.spare; room = a.room } };

    ghost invariant = { λ a. HasPlaces a.numbers (vec_len a.noted) (vec_capacity a.noted) a.spare a.room };
}

impl Counter {
    /// Counts nothing. Takes no memory.
    pub fn new(alloc: Global) -> Self
        ensures { result ≡ nothing_counted }
    {
        Counter {
            numbers: Numbered::new(alloc),
            noted: Vec::new(alloc),
            spare: 0,
            room: 0,
        }
    }

    /// How many are counted under the key. Takes no memory.
    pub fn count(&self, key: u64) -> u64
        ensures { result ≡ times self.now.counts key }
    {
        match self.numbers.get(key) {
            Some(count) => *count,
            None => 0,
        }
    }

    /// Whether no key has a count. Takes no memory.
    pub fn is_empty(&self) -> bool
        ensures { result ≡ (map.len self.now.counts == 0) }
    {
        self.numbers.is_empty()
    }

    /// Makes room, so that so many new keys can be counted and so many keys noted besides, with none refused. `Err`
    /// if there was no room and a growth was refused; nothing is changed then. Counts and notes stay as they are.
    pub fn reserve(&mut self, more: usize) -> Result<(), Memory>
        ensures same { self.new ≡ with_rooms self.old self.new }
        ensures room { OnOk result (more ≤ self.new.room) }
        ensures spare { OnOk result (more ≤ self.new.spare) }
        ensures keeps_room { self.old.room ≤ self.new.room }
        ensures had_room { more ≤ self.old.room → more ≤ self.old.spare → IsOk result }
        ensures err { OnErr result (self.new ≡ self.old) }
    {
        if more <= self.room && more <= self.spare {
            return Ok(());
        }
        let room = self.room.max(more);
        self.make_places(room, more)
    }

    // Makes room for so many new keys, and for so many notes besides.
    fn make_places(&mut self, room: usize, spare: usize) -> Result<(), Memory>
        ensures ok { OnOk result (self.new ≡ record self.old { room = room; spare = spare }) }
        ensures err { OnErr result (self.new ≡ self.old) }
    {
        let Some(keys) = self.numbers.len().checked_add(room) else {
            return Err(Memory);
        };
        let Some(places) = keys.checked_add(spare) else {
            return Err(Memory);
        };
        self.numbers.reserve(room)?;
        self.noted.reserve(places)?;
        self.room = room;
        self.spare = spare;
        Ok(())
    }

    /// Makes room for so many new keys, as `reserve` does; what may be noted besides stays.
    pub fn make_room(&mut self, more: usize) -> Result<(), Memory>
        ensures ok { OnOk result (self.new ≡ roomier more self.old) }
        ensures had_room { more ≤ self.old.room → IsOk result }
        ensures err { OnErr result (self.new ≡ self.old) }
    {
        if more <= self.room {
            return Ok(());
        }
        self.make_places(more, self.spare)
    }

    // Makes room for one note.
    fn make_spare(&mut self) -> Result<(), Memory>
        ensures ok { OnOk result (self.new ≡ record self.old { spare = max 1 self.old.spare }) }
        ensures had_spare { 0 < self.old.spare → IsOk result }
        ensures err { OnErr result (self.new ≡ self.old) }
    {
        if 0 < self.spare {
            return Ok(());
        }
        self.make_places(self.room, 1)
    }

    /// Counts one more. `Err` if the key is new, there was no room and the growth was refused, or if its count
    /// would not fit 64 bits; nothing is changed then.
    pub fn raise(&mut self, key: u64) -> Result<(), Memory>
        ensures ok { OnOk result (self.new ≡ raised self.old key) }
        ensures had_room { 0 < self.old.room → times self.old.counts key + 1 < 2 ^ 64 → IsOk result }
        ensures err { OnErr result (self.new ≡ self.old) }
    {
        if let Some(count) = self.numbers.get_mut(key) {
            let Some(more) = count.checked_add(1) else {
                return Err(Memory);
            };
            *count = more;
            return Ok(());
        }
        self.make_room(1)?;
        self.count_first(key);
        Ok(())
    }

    // Counts one of a key that has no count.
    fn count_first(&mut self, key: u64)
        requires free { map.get self.old.counts key ≡ None }
        requires room { 0 < self.old.room }
        ensures { self.new ≡ record self.old { counts = map.insert self.old.counts key 1; room = self.old.room - 1 } }
    {
        let Ok(()) = self.numbers.add(key, 1) else {
            unreachable!()
        };
        self.room -= 1;
    }

    /// Counts one less, and notes the key if that was the last. Takes no memory.
    pub fn lower(&mut self, key: u64)
        ensures { self.new ≡ lowered self.old key }
    {
        let Some(count) = self.numbers.get_mut(key) else {
            return;
        };
        if 1 < *count {
            *count -= 1;
            return;
        }
        self.numbers.remove(key);
        let Ok(()) = self.noted.push(key) else {
            unreachable!()
        };
    }

    /// Notes the key, whatever its count. `Err` if no place was spare and the growth was refused; nothing is
    /// changed then.
    #[inline(always)]
    pub fn note(&mut self, key: u64) -> Result<(), Memory>
        ensures ok { OnOk result (self.new ≡ noting self.old key) }
        ensures had_spare { 0 < self.old.spare → IsOk result }
        ensures err { OnErr result (self.new ≡ self.old) }
    {
        self.make_spare()?;
        let Ok(()) = self.noted.push(key) else {
            unreachable!()
        };
        self.spare -= 1;
        Ok(())
    }

    /// The keys that are noted, some perhaps more than once. Takes no memory.
    pub fn noted(&self) -> &[u64]
        ensures { result.now ≡ self.now.noted }
    {
        &self.noted
    }

    /// Takes out the key that was noted last; its place is spare then, until the next `reserve`. Takes no memory.
    pub fn take_noted(&mut self) -> Option<u64>
        ensures { TakesNoted self.old result self.new }
    {
        let key = self.noted.pop()?;
        self.spare += 1;
        Some(key)
    }
}
