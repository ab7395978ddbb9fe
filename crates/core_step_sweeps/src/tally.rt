ghost use Rattle.std.specs.Prelude.{◌≡◌, None, IsTrue, OnOk};
ghost use Rattle.std.specs.FinMap as map;
ghost use Rattle.core_refcounts.specs.Names.{times, raised, nothing_counted};

use rpc_msg::Memory;
use std::alloc::Global;
use std::marker::Model;
use vat_tables::Numbered;

/// Counts by key that only grow, until all are cleared: seen as a map without zeros. To clear them is work for each key,
/// and keeps the memory.
#[derive(Drop)]
pub struct Tally {
    numbers: Numbered<u64>,
    // The keys that have a count.
    keys: Vec<u64>,
}

impl Model for Tally {
    ghost use Rattle.std.specs.Prelude.{[]};
    ghost use Rattle.core_refcounts.specs.Names.{Counted, counted_code};
    ghost use Rattle.core_step_sweeps.specs.Listed.{AreListed};

    ghost Value = { Counted };

    ghost coded = { counted_code };

    ghost view = { λ a. record { counts = a.numbers.entries; noted = []; spare = 0; room = 0 } };

    ghost invariant = { λ a. AreListed a.numbers.entries a.keys.items };
}

impl Tally {
    /// Counts nothing. Takes no memory.
    pub fn new(alloc: Global) -> Self
        ensures { result ≡ nothing_counted }
    {
        Tally {
            numbers: Numbered::new(alloc),
            keys: Vec::new(alloc),
        }
    }

    /// How many are counted under the key. Takes no memory.
    pub fn count(&self, key: u64) -> u64
        ensures { result ≡ times self.now.counts key }
    {
        if self.keys.is_empty() {
            return 0;
        }
        match self.numbers.get(key) {
            Some(count) => *count,
            None => 0,
        }
    }

    /// Counts one more. `Err` if a growth was refused, or the count would not fit 64 bits.
    pub fn raise(&mut self, key: u64) -> Result<(), Memory>
        ensures { OnOk result (self.new ≡ raised self.old key) }
    {
        if let Some(count) = self.numbers.get_mut(key) {
            let Some(more) = count.checked_add(1) else {
                return Err(Memory);
            };
            *count = more;
            return Ok(());
        }
        self.count_first(key)
    }

    // Counts one of a key that has no count.
    fn count_first(&mut self, key: u64) -> Result<(), Memory>
        requires { map.get self.old.counts key ≡ None }
        ensures { OnOk result (self.new ≡ record self.old { counts = map.insert self.old.counts key 1 }) }
    {
        self.keys.push(key)?;
        let Ok(()) = self.numbers.add(key, 1) else {
            return Err(Memory);
        };
        Ok(())
    }

    /// Whether nothing is counted. Takes no memory.
    pub fn is_clear(&self) -> bool
        ensures { IsTrue result → self.now ≡ nothing_counted }
    {
        self.keys.as_slice().is_empty()
    }

    /// Counts nothing any more. Takes no memory.
    pub fn clear(&mut self)
        ensures { self.new ≡ nothing_counted }
    {
        while let Some(key) = self.keys.pop() {
            self.numbers.remove(key);
        }
    }
}
