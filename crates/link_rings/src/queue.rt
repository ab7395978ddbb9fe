ghost use Rattle.std.specs.Prelude.{◌≡◌, ◌+◌, ◌^◌, ◌<◌, ◌≤◌, [], ◌∷◌, ◌++◌, length, OnOk, IsOk, IfOk};
ghost use Rattle.link_rings.specs.Waiting.{frame};

mod made;

use crate::frame::Frame;
pub(crate) use made::Made;
use std::alloc::{AllocError, Global};
use std::collections::VecDeque;
use std::marker::Model;

/// The frames that a side made and that wait to be pushed, and how it numbers the next. Contracts see the frames, both
/// counts, and how many more frames can be made without memory.
#[derive(Drop)]
pub struct Waiting<M> {
    frames: VecDeque<Frame<M>>,
    made: u64,
    heard: u64,
    room: u64,
}

impl<M> Model for Waiting<M> {
    ghost use Rattle.std.specs.Prelude.{◌+◌, ◌≤◌, ◌<◌, ◌^◌};
    ghost use Rattle.std.specs.VecDeque.{deque_len, deque_capacity};
    ghost use Rattle.link_rings.specs.Waiting.{Held};

    ghost Value = { Held M };

    ghost view = { λ a. record { frames = a.frames.items; made = a.made; heard = a.heard; room = a.room } };

    ghost invariant = { λ a. (deque_len a.frames + a.room ≤ deque_capacity a.frames) × (a.made + a.room < 2 ^ 64) };
}

impl<M: Drop> Waiting<M> {
    /// No frames, with room for one. `AllocError` if a growth was refused.
    pub(crate) fn new(alloc: Global) -> Result<Self, AllocError>
        ensures empty { IfOk result (λ w. w ≡ record { frames = []; made = 0; heard = 0; room = 1 }) }
    {
        let mut frames = VecDeque::new(alloc);
        frames.reserve(1)?;
        Ok(Waiting {
            frames,
            made: 0,
            heard: 0,
            room: 1,
        })
    }

    /// Makes room for that many frames and one more. `AllocError` if a growth was refused, or if the numbers of
    /// frames would pass the greatest; the frames and their numbers stay then, and no room is lost.
    pub fn prepare(&mut self, more: usize) -> Result<(), AllocError>
        ensures frames { self.new.frames ≡ self.old.frames }
        ensures made { self.new.made ≡ self.old.made }
        ensures heard { self.new.heard ≡ self.old.heard }
        ensures ok { OnOk result (more < self.new.room) }
        ensures enough { more < self.old.room → IsOk result }
        ensures room { self.old.room ≤ self.new.room }
    {
        if (more as u64) < self.room {
            return Ok(());
        }
        let Some(room) = more.checked_add(1) else {
            return Err(AllocError);
        };
        let Some(_) = self.made.checked_add(room as u64) else {
            return Err(AllocError);
        };
        self.frames.reserve(room)?;
        self.room = room as u64;
        Ok(())
    }

    /// Makes a frame of the message, which waits behind the others. Takes no memory: there has to be room for it.
    pub fn push(&mut self, message: M)
        requires { 0 < self.old.room }
        ensures frames { self.new.frames ≡ self.old.frames ++ frame self.old.made self.old.heard message ∷ [] }
        ensures made { self.new.made ≡ self.old.made + 1 }
        ensures heard { self.new.heard ≡ self.old.heard }
        ensures room { self.old.room ≡ self.new.room + 1 }
    {
        self.frames.push_back_reserved(Frame {
            seq: self.made,
            ack: self.heard,
            message,
        });
        self.made += 1;
        self.room -= 1;
    }

    /// Takes the oldest frame out; there has to be one.
    pub(crate) fn pop(&mut self) -> Frame<M>
        requires { 0 < length self.old.frames }
        ensures frames { self.old.frames ≡ result ∷ self.new.frames }
        ensures made { self.new.made ≡ self.old.made }
        ensures heard { self.new.heard ≡ self.old.heard }
        ensures room { self.new.room ≡ self.old.room }
    {
        match self.frames.pop_front() {
            Some(frame) => frame,
            None => unreachable!(),
        }
    }

    /// Counts one more frame of the other side as received.
    pub(crate) fn hear(&mut self)
        requires { self.old.heard + 1 < 2 ^ 64 }
        ensures { self.new ≡ record self.old { heard = self.old.heard + 1 } }
    {
        self.heard += 1;
    }

    /// How many frames wait.
    pub(crate) fn len(&self) -> usize
        ensures { result ≡ length self.now.frames }
    {
        self.frames.len()
    }

    /// How many frames the side made.
    pub fn made(&self) -> u64
        ensures { result ≡ self.now.made }
    {
        self.made
    }

    /// How many frames of the other side the side received.
    pub fn heard(&self) -> u64
        ensures { result ≡ self.now.heard }
    {
        self.heard
    }
}
