ghost use Rattle.std.specs.Prelude.{◌≡◌, ◌≢◌, ◌==◌, ◌+◌, ◌-◌, ◌^◌, ◌≤◌, ◌<◌, max, None, Some, IsOk, OnOk, OnErr};
ghost use Rattle.std.specs.FinMap as map;
ghost use Rattle.core_refcounts.specs.Names.{times, totals_raised, totals_lowered, no_totals, with_room, HasNoZeros};

use rpc_msg::Memory;
use std::alloc::Global;
use std::marker::Model;
use vat_tables::Numbered;

/// How many places name each object, seen as a map without zeros. Of objects that lost their last name it keeps a few, which
/// contracts don't see: who asks for them has no promise of which they are, nor that none is missing.
#[derive(Drop)]
pub struct ObjectCounts {
    numbers: Numbered<u64>,
    lost: Vec<u64>,
    // So many new objects can be counted with no more memory.
    room: usize,
}

impl Model for ObjectCounts {
    ghost use Rattle.std.specs.Prelude.{◌≤◌};
    ghost use Rattle.core_refcounts.specs.Names.{Totals, totals_code, HasNoZeros};

    ghost Value = { Totals };

    ghost coded = { totals_code };

    ghost view = { λ a. record { counts = a.numbers.entries; room = a.room } };

    ghost invariant = { λ a. (a.room ≤ a.numbers.room) × HasNoZeros a.numbers.entries };
}

impl ObjectCounts {
    /// Counts nothing. Takes no memory.
    pub fn new(alloc: Global) -> Self
        ensures { result ≡ no_totals }
    {
        ObjectCounts {
            numbers: Numbered::new(alloc),
            lost: Vec::new(alloc),
            room: 0,
        }
    }

    /// How many places name the object. Takes no memory.
    pub fn count(&self, object: u64) -> u64
        ensures { result ≡ times self.now.counts object }
    {
        match self.numbers.get(object) {
            Some(count) => *count,
            None => 0,
        }
    }

    /// How many objects are named; each that has a count is. Takes no memory.
    pub fn len(&self) -> usize
        ensures value { result ≡ map.len self.now.counts }
        ensures each { HasNoZeros self.now.counts }
    {
        self.numbers.len()
    }

    /// Makes room, so that so many new objects can be counted with none refused. `Err` if there was no room and a growth
    /// was refused; nothing is changed then.
    pub fn make_room(&mut self, more: usize) -> Result<(), Memory>
        ensures ok { OnOk result (self.new ≡ with_room (max more self.old.room) self.old) }
        ensures had_room { more ≤ self.old.room → IsOk result }
        ensures err { OnErr result (self.new ≡ self.old) }
    {
        if more <= self.room {
            return Ok(());
        }
        self.reserve_lost(more)?;
        self.numbers.reserve(more)?;
        self.room = more;
        Ok(())
    }

    // So that each object that is named, and so many more, can be kept when it loses its last name. No more places than
    // that: who never asks for them fills them, and no more is kept.
    fn reserve_lost(&mut self, more: usize) -> Result<(), Memory>
        ensures { self.new ≡ self.old }
    {
        let Some(places) = self.numbers.len().checked_add(more) else {
            return Err(Memory);
        };
        let Some(lacking) = places.checked_sub(self.lost.len()) else {
            return Ok(());
        };
        self.lost.reserve(lacking)?;
        Ok(())
    }

    /// Counts one more. `Err` if the object is new, there was no room and the growth was refused, or if its count
    /// would not fit 64 bits; nothing is changed then.
    pub fn raise(&mut self, object: u64) -> Result<(), Memory>
        ensures ok { OnOk result (self.new ≡ totals_raised self.old object) }
        ensures had_room { 0 < self.old.room → times self.old.counts object + 1 < 2 ^ 64 → IsOk result }
        ensures err { OnErr result (self.new ≡ self.old) }
    {
        if let Some(count) = self.numbers.get_mut(object) {
            let Some(more) = count.checked_add(1) else {
                return Err(Memory);
            };
            *count = more;
            return Ok(());
        }
        self.make_room(1)?;
        self.count_first(object);
        Ok(())
    }

    // Counts one of an object that has no count.
    fn count_first(&mut self, object: u64)
        requires free { map.get self.old.counts object ≡ None }
        requires room { 0 < self.old.room }
        ensures { self.new ≡ record { counts = map.insert self.old.counts object 1; room = self.old.room - 1 } }
    {
        let Ok(()) = self.numbers.add(object, 1) else {
            unreachable!()
        };
        self.room -= 1;
    }

    /// Counts one less. Takes no memory.
    pub fn lower(&mut self, object: u64)
        ensures { self.new ≡ totals_lowered self.old object }
    {
        let Some(count) = self.numbers.get_mut(object) else {
            return;
        };
        if 1 < *count {
            *count -= 1;
            return;
        }
        self.numbers.remove(object);
        self.keep_lost(object);
    }

    // Keeps an object that lost its last name, if there is a place for it.
    fn keep_lost(&mut self, object: u64)
        ensures { self.new ≡ self.old }
    {
        if self.lost.len() < self.lost.capacity() {
            self.lost.push_reserved(object);
        }
    }

    /// Takes out an object that lost its last name, perhaps, since it was asked last. It may be named again, and some may be
    /// missing. Takes no memory.
    #[inline(always)]
    pub fn take_lost(&mut self) -> Option<u64>
        ensures { self.new ≡ self.old }
    {
        self.lost.pop()
    }
}
