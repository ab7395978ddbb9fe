//! Bytes on their way.
ghost use Rattle.std.specs.Prelude.{◌≡◌, [], take, drop, IfOk, OnOk, OnErr};
ghost use Rattle.vat_joined.specs.Recorded.{on_way};

use rpc_msg::Memory;
use std::alloc::Global;
use std::marker::Model;
use std::mem;

/// Bytes that are on their way, the oldest first. Contracts see those that were gathered, and those behind them that were put last.
#[derive(Drop)]
pub(crate) struct Stream {
    bytes: Vec<u8>,
    last: Vec<u8>,
}

impl Model for Stream {
    ghost use Rattle.std.specs.Prelude.{ℕ, List};

    ghost Value = { List ℕ × List ℕ };

    ghost view = { λ a. (a.bytes.items, a.last.items) };
}

impl Stream {
    /// No bytes. Takes no memory.
    pub(crate) fn new(alloc: Global) -> Self
        ensures { result ≡ ([], []) }
    {
        Stream {
            bytes: Vec::new(alloc),
            last: Vec::new(alloc),
        }
    }

    /// Gathers all that are on their way, so that more can be put behind them.
    pub(crate) fn gather(&mut self) -> Result<(), Memory>
        ensures ok { OnOk result (self.new ≡ (on_way self.old, [])) }
        ensures err { OnErr result (self.new ≡ self.old) }
    {
        match self.bytes.append(&mut self.last) {
            Ok(()) => return Ok(()),
            Err(_) => return Err(Memory),
        }
    }

    /// Puts bytes behind those that were gathered, which must be all. Takes no memory.
    pub(crate) fn put(&mut self, bytes: Vec<u8>)
        requires { self.old.1 ≡ [] }
        ensures { self.new ≡ (self.old.0, bytes.items) }
    {
        self.last = bytes;
    }

    /// Takes the first so many bytes, or all if there are fewer. `Memory` if a growth was refused: the same bytes are on their way.
    pub(crate) fn take(&mut self, alloc: Global, count: usize) -> Result<Vec<u8>, Memory>
        ensures taken { IfOk result (λ bytes. bytes.items ≡ take count (on_way self.old)) }
        ensures left { OnOk result (on_way self.new ≡ drop count (on_way self.old)) }
        ensures err { OnErr result (on_way self.new ≡ on_way self.old) }
    {
        self.gather()?;
        if self.bytes.len() <= count {
            return Ok(mem::replace(&mut self.bytes, Vec::new(alloc)));
        }
        let rest = match self.bytes.split_off(count) {
            Ok(rest) => rest,
            Err(_) => return Err(Memory),
        };
        Ok(mem::replace(&mut self.bytes, rest))
    }
}
