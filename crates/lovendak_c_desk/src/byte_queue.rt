//! Bytes of which the front may be taken.
ghost use Rattle.std.specs.Prelude.{◌≡◌, ◌==◌, ◌++◌, min, take, drop, length};

use std::marker::Model;

/// Bytes of which the front may be taken, seen by contracts as those that are left.
#[derive(Drop)]
pub struct Waiting {
    bytes: Vec<u8>,
    taken: usize,
}

impl Model for Waiting {
    ghost use Rattle.std.specs.Prelude.{ℕ, List, ◌≤◌, drop, length};

    ghost Value = { List ℕ };

    ghost view = { λ a. drop a.taken a.bytes.items };

    ghost invariant = { λ a. a.taken ≤ length a.bytes.items };
}

impl Waiting {
    /// These bytes, of which none was taken.
    pub fn new(bytes: Vec<u8>) -> Waiting
        ensures { result ≡ bytes.items }
    {
        Waiting { bytes, taken: 0 }
    }

    /// How many are left.
    pub fn len(&self) -> usize
        ensures { result ≡ length self.now }
    {
        self.bytes.len() - self.taken
    }

    /// Whether none is left.
    pub fn is_empty(&self) -> bool
        ensures { result ≡ (length self.now == 0) }
    {
        self.len() == 0
    }

    /// Takes as many as there is room for, once, and gives how many. What is behind them in `out` stays.
    pub fn take(&mut self, out: &mut [u8]) -> usize
        ensures many { result ≡ min (length out.old) (length self.old) }
        ensures given { out.new ≡ take result self.old ++ drop result out.old }
        ensures left { self.new ≡ drop result self.old }
    {
        let rest = &self.bytes.as_slice()[self.taken..];
        let many = out.len().min(rest.len());
        out[..many].copy_from_slice(&rest[..many]);
        self.taken += many;
        many
    }
}
