//! What came of the peer's stream and was not heard.
ghost use Rattle.std.specs.Prelude.{◌≡◌, ◌<◌, ◌≤◌, ◌∷◌, ◌==◌, None, Some, [], drop, is_some, length, IfOk, OnOk, IfSome, IfNone};
ghost use Rattle.capn_fronts.specs.Parts.{IsHeld, IsShort, IsWhole, front_of, nothing};
ghost use Rattle.vat_connection.specs.Hearing.{Inflow as In, IsParted, PartsOn, ends_with, nothing_in};

use capn_fronts::{FrontReader, KeptFrame, pieces_stand};
use capn_stream::StreamError;
use rpc_msg::Memory;
use std::alloc::Global;
use std::collections::VecDeque;
use std::marker::Model;

/// The number with which a vat goes down if the stream ends between two frames.
const ENDED: u16 = 0;

/// The bytes that came, parted into frames: the whole ones that wait, the reader with the beginning of the next one, and the number
/// with which the vat goes down behind them, once the stream is over. Of a frame that is larger than a message may be its front is kept
/// alone.
#[derive(Drop)]
pub(crate) struct Inflow {
    unheard: VecDeque<KeptFrame>,
    reader: FrontReader,
    over: Option<u16>,
    alloc: Global,
}

impl Model for Inflow {
    ghost use Rattle.capn_fronts.specs.Parts.{IsShort, front_of};
    ghost use Rattle.vat_connection.specs.Hearing.{Inflow as In, inflow_code};

    ghost Value = { In };

    ghost coded = { inflow_code };

    ghost view = { λ a. record { unheard = a.unheard.items; waiting = a.reader; over = a.over } };

    ghost invariant = { λ a. IsShort (front_of a.reader) };
}

impl Inflow {
    /// Nothing came. Takes no memory.
    pub(crate) fn new(alloc: Global) -> Self
        ensures { result ≡ nothing_in }
    {
        Inflow {
            unheard: VecDeque::new(alloc),
            reader: FrontReader::new(alloc),
            over: None,
            alloc,
        }
    }

    /// Whether the stream is over.
    pub(crate) fn is_over(&self) -> bool
        ensures { result ≡ is_some self.now.over }
    {
        self.over.is_some()
    }

    /// The number with which the vat goes down behind the frames.
    pub(crate) fn over(&self) -> Option<u16>
        ensures { result ≡ self.now.over }
    {
        self.over
    }

    /// Whether no frame waits.
    pub(crate) fn is_empty(&self) -> bool
        ensures { result ≡ (length self.now.unheard == 0) }
    {
        self.unheard.is_empty()
    }

    /// Takes the oldest frame out, if one waits.
    pub(crate) fn pop(&mut self) -> Option<KeptFrame>
        ensures oldest { IfSome result (λ frame. self.old ≡ record self.new { unheard = frame ∷ self.new.unheard }) }
        ensures none { IfNone result (self.old.unheard ≡ []) }
    {
        self.unheard.pop_front()
    }

    /// The stream is over: what waits of a frame is dropped, and the vat goes down with that number behind the frames.
    pub(crate) fn end(&mut self, number: u16)
        ensures { self.new ≡ record self.old { waiting = nothing; over = Some number } }
    {
        self.reader = FrontReader::new(self.alloc);
        self.over = Some(number);
    }

    /// The number with which a vat goes down if the stream ends here: 0 between two frames, 2 inside one.
    pub(crate) fn end_number(&self) -> u16
        ensures { result ≡ ends_with self.now.waiting }
    {
        match self.reader.ended() {
            Ok(()) => ENDED,
            Err(fault) => fault.code(),
        }
    }

    /// Parts bytes that come behind those that wait into frames, and keeps these. What begins with no frame is not kept: the stream is
    /// over then, with the fault's number. After `Memory` nothing is known of what is kept.
    pub(crate) fn take(&mut self, bytes: &[u8]) -> Result<(), Memory>
        requires { self.old.over ≡ None }
        ensures { OnOk result (IsParted self.old bytes.now self.new) }
    {
        let mut at = 0;
        while at < bytes.len() {
            if self.is_over() {
                return Ok(());
            }
            at += self.take_next(&bytes[at..])?;
        }
        Ok(())
    }

    /// What waits is the beginning of a frame, and not all of it.
    pub(crate) fn waits(&self)
        ensures held { IsHeld self.now.waiting }
        ensures short { IsShort (front_of self.now.waiting) }
    {
        let _held = self.reader.waiting();
    }

    // Takes bytes of a piece, up to the end of a frame; gives how many. All, if the stream is over with it.
    fn take_next(&mut self, piece: &[u8]) -> Result<usize, Memory>
        requires open { self.old.over ≡ None }
        requires some { 0 < length piece.now }
        // What the rest makes of it is what all does.
        ensures parts { IfOk result (λ taken. (new : In) → PartsOn self.new (drop taken piece.now) new → IsParted self.old piece.now new) }
        ensures some { IfOk result (λ taken. 0 < taken) }
        ensures within { IfOk result (λ taken. taken ≤ length piece.now) }
    {
        pieces_stand();
        let taken = match self.reader.push(piece) {
            Ok(taken) => taken,
            Err(StreamError::Memory) => return Err(Memory),
            Err(StreamError::Fault(fault)) => {
                self.over = Some(fault.code());
                return Ok(piece.len());
            }
        };
        if let Some(frame) = self.reader.take_frame() {
            frames_are_whole(&frame);
            self.unheard.push_back(frame)?;
        }
        Ok(taken)
    }
}

/// What is kept of a frame is of a whole one.
pub(crate) fn frames_are_whole(frame: &KeptFrame)
    ensures { IsWhole frame.now }
{
    let _bytes = frame.bytes();
}
