//! The reader of a stream.
ghost use Rattle.std.specs.Prelude.{◌≡◌, ◌+◌, ◌-◌, ◌*◌, ◌++◌, ◌<◌, ◌≤◌, length, IfOk, OnOk, OnErr};
ghost use Rattle.capn_fronts.specs.Parts.{IsHeld, IsShort, front_of, nothing};
ghost use Rattle.capn_fronts.specs.Readers.{Given, Pushed, added_by, end_of};

use crate::extent::extent_of;
use crate::frame::KeptFrame;
use capn_stream::{Front, StreamError};
use capn_trees::PayloadFault;
use std::alloc::{AllocError, Global};
use std::cmp::min;
use std::marker::Model;
use std::mem;

/// Parts the bytes of a stream into frames, one frame at a time. Contracts see what is kept of the frame that comes, and how many of
/// its bytes were dropped.
#[derive(Drop)]
pub struct FrontReader {
    alloc: Global,
    kept: Vec<u8>,
    dropped: usize,
}

impl Model for FrontReader {
    ghost use Rattle.capn_fronts.specs.Parts.{IsHeld, Part, part_code};

    ghost Value = { Part };

    ghost coded = { part_code };

    ghost view = { λ a. record { kept = a.kept.items; dropped = a.dropped } };

    ghost invariant = { λ a. IsHeld (record { kept = a.kept.items; dropped = a.dropped }) };
}

/// Puts more bytes behind the others, with room for `len` in all. If memory is refused they are as they were.
fn grow(bytes: &mut Vec<u8>, more: &[u8], len: usize) -> Result<(), AllocError>
    ensures ok { OnOk result (bytes.new.items ≡ bytes.old.items ++ more.now) }
    ensures err { OnErr result (bytes.new.items ≡ bytes.old.items) }
{
    bytes.reserve_exact(len.saturating_sub(bytes.len()))?;
    bytes.extend_from_slice(more)
}

/// Puts more bytes behind those that are kept, of which so many are to be kept. Gives how many were dropped then.
fn add(kept: &mut Vec<u8>, dropped: usize, keeps: usize, more: &[u8]) -> Result<usize, AllocError>
    requires room { length kept.old.items ≤ keeps }
    requires few { dropped ≤ 8 * 8388617 }
    ensures ok { IfOk result (λ dropped_then. record { kept = kept.new.items; dropped = dropped_then }
        ≡ added_by (keeps - length kept.old.items) (record { kept = kept.old.items; dropped = dropped }) more.now) }
    ensures err { OnErr result (kept.new.items ≡ kept.old.items) }
{
    let room = min(keeps - kept.len(), more.len());
    grow(kept, &more[..room], keeps)?;
    Ok(dropped + (more.len() - room))
}

impl FrontReader {
    /// A reader of a stream of which nothing has come. Takes no memory.
    pub fn new(alloc: Global) -> FrontReader
        ensures { result ≡ nothing }
    {
        FrontReader {
            alloc,
            kept: Vec::new(alloc),
            dropped: 0,
        }
    }

    /// Takes bytes of a piece, and gives how many it took: as many as it needs to know how far the frame goes, or to make it whole.
    /// While a whole frame waits it takes none.
    ///
    /// `Memory` leaves it as it was. A `Fault` (3, 4) comes as soon as the bytes that say it are there: the stream can't go on then, and
    /// nothing is kept of it.
    pub fn push(&mut self, piece: &[u8]) -> Result<usize, StreamError>
        ensures pushed { Pushed self.old piece.now result self.new }
        ensures within { IfOk result (λ taken. taken ≤ length piece.now) }
        ensures some { IsShort (front_of self.old) → 0 < length piece.now → IfOk result (λ taken. 0 < taken) }
    {
        let extent = extent_of(&self.kept, self.dropped);
        let Front::Need(len) = extent.front else {
            return Ok(0);
        };
        let taken = min(len - (self.kept.len() + self.dropped), piece.len());
        self.dropped = add(&mut self.kept, self.dropped, extent.keeps, &piece[..taken])?;
        if let Front::Fault(fault) = extent_of(&self.kept, self.dropped).front {
            self.kept = Vec::new(self.alloc);
            self.dropped = 0;
            return Err(StreamError::Fault(fault));
        }
        Ok(taken)
    }

    /// What is kept of the frame that is whole, if one is; the next one begins behind it. Takes no memory.
    pub fn take_frame(&mut self) -> Option<KeptFrame>
        ensures given { Given self.old result self.new }
        ensures waits { IsShort (front_of self.new) }
    {
        let extent = extent_of(&self.kept, self.dropped);
        let Front::Complete(_) = extent.front else {
            return None;
        };
        let kept = mem::replace(&mut self.kept, Vec::new(self.alloc));
        let dropped = self.dropped;
        self.dropped = 0;
        Some(KeptFrame::of(kept, dropped))
    }

    /// Whether the stream may end here: a frame that is not whole is cut short (2).
    pub fn ended(&self) -> Result<(), PayloadFault>
        ensures { result ≡ end_of self.now }
    {
        if self.kept.is_empty() {
            return Ok(());
        }
        match extent_of(&self.kept, self.dropped).front {
            Front::Complete(_) => Ok(()),
            _ => Err(PayloadFault::Short),
        }
    }

    /// How many bytes are kept.
    pub fn waiting(&self) -> usize
        ensures count { result ≡ length self.now.kept }
        ensures most { result ≤ 72 + 8 * 65536 }
        ensures held { IsHeld self.now }
    {
        self.kept.len()
    }
}
