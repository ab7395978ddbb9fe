ghost use Rattle.std.specs.Prelude.{◌≡◌, []};

use crate::frame::Frame;
use crate::queue::Waiting;
use std::alloc::Global;
use std::collections::VecDeque;
use std::marker::Model;
use std::mem;

/// All frames that a side made, in one list, and how it numbers the next; contracts see it as a [`Waiting`]. A list gives
/// its frames in one slice, and a queue in two.
#[derive(Drop)]
pub(crate) struct Made<M> {
    frames: Vec<Frame<M>>,
    made: u64,
    heard: u64,
    room: u64,
    alloc: Global,
}

impl<M> Model for Made<M> {
    ghost use Rattle.std.specs.Prelude.{◌+◌, ◌≤◌, ◌<◌, ◌^◌, vec_len, vec_capacity};
    ghost use Rattle.link_rings.specs.Waiting.{Held};

    ghost Value = { Held M };

    ghost view = { λ a. record { frames = a.frames.items; made = a.made; heard = a.heard; room = a.room } };

    ghost invariant = { λ a. (vec_len a.frames + a.room ≤ vec_capacity a.frames) × (a.made + a.room < 2 ^ 64) };
}

impl<M: Drop> Made<M> {
    /// The frames of a queue, which is left with none and no room. Takes no memory.
    pub(crate) fn of(queue: &mut Waiting<M>, alloc: Global) -> Self
        ensures { result ≡ queue.old }
    {
        let frames = mem::replace(&mut queue.frames, VecDeque::new(alloc));
        let room = mem::replace(&mut queue.room, 0);
        Made {
            frames: frames.into_vec(),
            made: queue.made,
            heard: queue.heard,
            room,
            alloc,
        }
    }

    /// Puts the frames into a queue, and leaves none and no room. Takes no memory.
    pub(crate) fn lay_out(&mut self, queue: &mut Waiting<M>)
        ensures { queue.new ≡ self.old }
    {
        let frames = mem::replace(&mut self.frames, Vec::new(self.alloc));
        queue.frames = VecDeque::from_vec(frames);
        queue.made = self.made;
        queue.heard = self.heard;
        queue.room = mem::replace(&mut self.room, 0);
    }

    /// Takes the frames of a queue back, which is left with none and no room. Takes no memory.
    pub(crate) fn take_back(&mut self, queue: &mut Waiting<M>)
        ensures { self.new ≡ queue.old }
    {
        *self = Made::of(queue, self.alloc);
    }

    /// The frames, the oldest first.
    pub(crate) fn frames(&self) -> &[Frame<M>]
        ensures { result.now ≡ self.now.frames }
    {
        &self.frames
    }
}
