//! The bytes of one end.
ghost use Rattle.std.specs.Prelude.{◌≡◌, ◌<◌, ◌≤◌, length, [], Some, None, is_some, IsTrue, IfOk, IfSome};
ghost use Rattle.capn_stream.specs.Fronts.{front_of};
ghost use Rattle.rpc_look_lib.specs.Streams.{waits_of, IsKept, IsBegun, Gives};

use capn_stream::{Frame, FrameReader, StreamError, frames_are_the_bytes};
use std::alloc::Global;
use std::marker::Model;

/// What a part of the bytes gives.
#[derive(Drop)]
pub(crate) struct Given {
    /// How many bytes were taken.
    pub(crate) count: usize,
    /// The frame that ends with them.
    pub(crate) frame: Option<Frame>,
}

/// The bytes of one end, which come in parts. Contracts see those that wait, the beginning of a frame; or that nothing of
/// the end is read any more.
#[derive(Drop)]
pub(crate) struct Stream {
    frames: FrameReader,
    /// Whether its frames are read.
    is_sound: bool,
}

impl Model for Stream {
    ghost use Rattle.rpc_look_lib.specs.Streams.{Waits, waits_of, IsKept};

    ghost Value = { Waits };

    ghost view = { λ a. waits_of a.frames a.is_sound };

    ghost invariant = { λ a. IsKept a.frames a.is_sound };
}

impl Stream {
    /// Nothing came.
    pub(crate) fn new(alloc: Global) -> Stream
        ensures { result ≡ Some [] }
    {
        Stream {
            frames: FrameReader::new(alloc),
            is_sound: true,
        }
    }

    /// Whether its frames are read.
    pub(crate) fn is_read(&self) -> bool
        ensures read { result ≡ is_some self.now }
        ensures begun { IfSome self.now (λ waits. IsBegun (front_of waits)) }
    {
        frames_are_the_bytes();
        self.is_sound
    }

    /// How many bytes wait.
    pub(crate) fn waiting(&self) -> usize {
        if self.is_sound {
            self.frames.waiting()
        } else {
            0
        }
    }

    /// Takes bytes of a part, up to the end of a frame, and gives the frame.
    ///
    /// A `Fault` where no frame comes next: nothing of the end is read any more. `Memory` where a growth was refused.
    pub(crate) fn give(&mut self, part: &[u8]) -> Result<Given, StreamError>
        requires read { IsTrue (is_some self.old) }
        requires some { 0 < length part.now }
        ensures within { IfOk result (λ given. (0 < given.count) × (given.count ≤ length part.now)) }
        ensures gives { Gives self.old part.now result self.new }
    {
        frames_are_the_bytes();
        match self.frames.push(part) {
            Ok(count) => {
                let frame = self.frames.take_frame();
                Ok(Given { count, frame })
            }
            Err(StreamError::Memory) => Err(StreamError::Memory),
            Err(StreamError::Fault(fault)) => {
                self.is_sound = false;
                Err(StreamError::Fault(fault))
            }
        }
    }
}
