//! The reader of a stream.
ghost use Rattle.std.specs.Prelude.{◌≡◌, ◌+◌, ◌*◌, ◌++◌, ◌<◌, ◌≤◌, length, [], IfOk, OnOk, OnErr};
ghost use Rattle.capn_stream.specs.Readers.{Pushed, Filled, Taken, end_of, count_of, IsWaiting};
ghost use Rattle.capn_stream.specs.Fronts.{IsHeld};

use crate::error::StreamError;
use crate::frame::Frame;
use crate::front::{Front, next_frame};
use capn_trees::PayloadFault;
use std::alloc::{AllocError, Global};
use std::cmp::min;
use std::marker::Model;
use std::mem;

/// Parts the bytes of a stream into frames, one frame at a time. Contracts see the bytes that wait, which are the
/// beginning of a frame or a whole one; or the fault for which it failed.
#[derive(Drop)]
pub struct FrameReader {
    alloc: Global,
    bytes: Vec<u8>,
    fault: Option<PayloadFault>,
}

impl Model for FrameReader {
    ghost use Rattle.std.specs.Prelude.{List, ℕ, Result};
    ghost use Rattle.capn_trees.specs.declared.faults.PayloadFault.{PayloadFault};
    ghost use Rattle.capn_stream.specs.Readers.{reader_of};
    ghost use Rattle.capn_stream.specs.Fronts.{IsHeld};

    ghost Value = { Result (List ℕ) PayloadFault };

    ghost view = { λ a. reader_of a.bytes.items a.fault };

    ghost invariant = { λ a. IsHeld a.bytes.items };
}

/// Puts more bytes behind the others, with room for `len` in all. If memory is refused they are as they were.
fn grow(bytes: &mut Vec<u8>, more: &[u8], len: usize) -> Result<(), AllocError>
    ensures ok { OnOk result (bytes.new.items ≡ bytes.old.items ++ more.now) }
    ensures err { OnErr result (bytes.new.items ≡ bytes.old.items) }
{
    bytes.reserve_exact(len.saturating_sub(bytes.len()))?;
    bytes.extend_from_slice(more)
}

/// Fills up what waits, as far as the table says at a time.
fn fill_up(bytes: &mut Vec<u8>, piece: &[u8]) -> Result<usize, StreamError>
    requires { IsHeld bytes.old.items }
    ensures filled { Filled bytes.old.items piece.now result bytes.new.items }
    ensures held { OnOk result (IsHeld bytes.new.items) }
{
    let held = bytes.len();
    let mut taken = 0;
    loop {
        let wanted = match next_frame(bytes) {
            Front::Complete(_) => return Ok(taken),
            Front::Fault(fault) => return Err(StreamError::Fault(fault)),
            Front::Need(len) => len,
        };
        let more = min(wanted - bytes.len(), piece.len() - taken);
        if more == 0 {
            return Ok(taken);
        }
        let Ok(()) = grow(bytes, &piece[taken..taken + more], wanted) else {
            bytes.truncate(held);
            return Err(StreamError::Memory);
        };
        taken += more;
    }
}

/// Fills up what waits from a piece, to the end of the frame at most, and gives how many bytes it took.
fn fill(bytes: &mut Vec<u8>, piece: &[u8]) -> Result<usize, StreamError>
    requires { IsHeld bytes.old.items }
    ensures filled { Filled bytes.old.items piece.now result bytes.new.items }
    ensures held { OnOk result (IsHeld bytes.new.items) }
{
    if bytes.is_empty() {
        if let Front::Complete(len) = next_frame(piece) {
            grow(bytes, &piece[..len], len)?;
            return Ok(len);
        }
    }
    fill_up(bytes, piece)
}

impl FrameReader {
    /// A reader of a stream of which nothing has come. Takes no memory.
    pub fn new(alloc: Global) -> FrameReader
        ensures { result ≡ Ok [] }
    {
        FrameReader {
            alloc,
            bytes: Vec::new(alloc),
            fault: None,
        }
    }

    /// Takes bytes of a piece, up to the end of the frame that they are of, and gives how many it took: all, or as many
    /// as make the frame whole. What it didn't take is handed to it again once the frame was taken; while a whole frame
    /// waits it takes none.
    ///
    /// `Memory` leaves it as it was. A `Fault` (3, 4) comes before any byte of a segment is kept; the reader has then
    /// failed, keeps nothing and answers each further call with that fault.
    pub fn push(&mut self, piece: &[u8]) -> Result<usize, StreamError>
        ensures pushed { Pushed self.old piece.now result self.new }
        ensures within { IfOk result (λ taken. taken ≤ length piece.now) }
        ensures some { IsWaiting self.old → 0 < length piece.now → IfOk result (λ taken. 0 < taken) }
    {
        if let Some(fault) = self.fault {
            return Err(StreamError::Fault(fault));
        }
        match fill(&mut self.bytes, piece) {
            Ok(taken) => Ok(taken),
            Err(StreamError::Memory) => Err(StreamError::Memory),
            Err(StreamError::Fault(fault)) => {
                self.bytes = Vec::new(self.alloc);
                self.fault = Some(fault);
                Err(StreamError::Fault(fault))
            }
        }
    }

    /// The frame that is whole, if one is; the next one begins behind it. Takes no memory.
    pub fn take_frame(&mut self) -> Option<Frame>
        ensures taken { Taken self.old result self.new }
        ensures waits { IsWaiting self.new }
    {
        if self.fault.is_some() {
            return None;
        }
        match next_frame(&self.bytes) {
            Front::Complete(_) => {
                let bytes = mem::replace(&mut self.bytes, Vec::new(self.alloc));
                Some(Frame::whole(bytes))
            }
            _ => None,
        }
    }

    /// Whether the stream may end here: a frame that is not whole is cut short (2), and a reader that failed says its
    /// fault.
    pub fn ended(&self) -> Result<(), PayloadFault>
        ensures { result ≡ end_of self.now }
    {
        if let Some(fault) = self.fault {
            return Err(fault);
        }
        if self.bytes.is_empty() {
            return Ok(());
        }
        match next_frame(&self.bytes) {
            Front::Complete(_) => Ok(()),
            Front::Need(_) => Err(PayloadFault::Short),
            Front::Fault(fault) => Err(fault),
        }
    }

    /// How many bytes wait: fewer than a table of 16 segments and 65,536 words have, except for a whole frame that is to be
    /// taken.
    pub fn waiting(&self) -> usize
        ensures count { result ≡ count_of self.now }
        ensures most { result ≤ 72 + 8 * 65536 }
        ensures fewer { IsWaiting self.now → result < 72 + 8 * 65536 }
    {
        if self.fault.is_some() {
            return 0;
        }
        self.bytes.len()
    }
}
