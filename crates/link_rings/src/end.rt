use crate::entry::Entry;
use crate::frame::Frame;
use crate::logged_side::LoggedSide;
use crate::party::Party;
use crate::turn::Turn;
use rtrb::{Consumer, Producer};
use std::marker::Model;
use std::snapshot::Snapshot;

/// One end of a link: a side with its log, and its ends of two rings, one to the other side and one from there. It can move
/// to another thread, and none of its calls waits.
#[derive(Drop)]
pub struct End<P: Party<N, M>, N, M> {
    pub(crate) logged: LoggedSide<P, N, M>,
    pub(crate) start: Snapshot<P>,
    pub(crate) producer: Producer<Frame<M>>,
    pub(crate) consumer: Consumer<Frame<M>>,
}

impl<P: Party<N, M>, N, M> Model for End<P, N, M> {
    ghost use Rattle.rtrb.specs.Ring.{sent, received};
    ghost use Rattle.link_rings.specs.LoggedSides.{at, IsReady};
    ghost use Rattle.link_rings.specs.Kept.{Runs, Passes};
    ghost use Rattle.link_rings.specs.Ends.{Ended};

    ghost Value = { Ended P M N };

    ghost view = { λ a. record { start = a.start.value; side = a.logged.side; log = a.logged.log.items; waiting = a.logged.waiting; producer = a.producer; consumer = a.consumer } };

    ghost invariant = { λ a. Runs P.input P.sends P.step (P.state a.start.value) (at P.state a.logged) × Passes P.input P.sends P.step (P.down_by (P.state a.logged.side)) (at P.state a.logged) (sent a.producer) (received a.consumer) × IsReady P.state P.down_by a.logged };
}

impl<P: Party<N, M>, N: Drop, M: Drop> End<P, N, M> {
    ghost use Rattle.std.specs.Prelude.{◌≡◌, ◌+◌, ◌≤◌, ◌⊎◌, [], ◌++◌, length, IsTrue, IsFalse};
    ghost use Rattle.rtrb.specs.Ring.{sent, received, known_free};
    ghost use Rattle.link_rings.specs.Seats.{CommandsAt};
    ghost use Rattle.link_rings.specs.Ends.{place, IsSameEnd, Turns, Flushes, Holds};

    /// Has the side obey a command. While it is up one entry is added to the log: of the command with what it answers, or of
    /// a shut, which takes the side down. One that is down refuses the command, and nothing changes. What the step sends
    /// waits for `flush`.
    pub fn command(&mut self, command: P::Command) -> P::Answer
        ensures end { IsSameEnd self.old self.new }
        ensures commands { CommandsAt P.down_by P.input P.sends P.step P.answers P.refuses (P.down_by (P.state self.old.side)) (place P.state self.old) command result (place P.state self.new) }
        ensures pushed { sent self.new.producer ≡ sent self.old.producer }
        ensures popped { received self.new.consumer ≡ received self.old.consumer }
    {
        match self.logged.side.down() {
            Some(_) => return self.logged.side.refuse(command),
            None => return self.logged.obey(command),
        }
    }

    /// Pops one frame, if it finds one, and takes it: one entry is added to the log, of the frame or of a shut for it. One
    /// that is down pops none.
    pub fn turn(&mut self) -> Turn<P::Effects>
        ensures end { IsSameEnd self.old self.new }
        ensures turns { Turns P.state P.down_by P.input P.sends P.step P.tells (P.down_by (P.state self.old.side)) self.old result self.new }
    {
        if let Some(number) = self.logged.side.down() {
            return Turn::Down(number);
        }
        let Ok(frame) = self.consumer.pop() else {
            return Turn::Idle;
        };
        match self.logged.take(frame) {
            Ok(effects) => return Turn::Handled(effects),
            Err(number) => return Turn::Down(number),
        }
    }

    /// Pushes frames that wait, the oldest first, while the ring has room, and answers how many. Takes no memory.
    pub fn flush(&mut self) -> usize
        ensures end { IsSameEnd self.old self.new }
        ensures flushes { Flushes self.old result self.new }
    {
        let before = self.waiting();
        while self.flush_one() {}
        before - self.waiting()
    }

    // Pushes the oldest frame that waits, if a slot is free.
    fn flush_one(&mut self) -> bool
        ensures end { IsSameEnd self.old self.new }
        ensures side { self.new.side ≡ self.old.side }
        ensures log { self.new.log ≡ self.old.log }
        ensures popped { received self.new.consumer ≡ received self.old.consumer }
        ensures fewer { IsTrue result → length self.new.waiting.frames + 1 ≡ length self.old.waiting.frames }
        ensures free { known_free self.old.producer ≤ known_free self.new.producer + 1 }
        ensures none { IsFalse result → self.new.waiting.frames ≡ self.old.waiting.frames }
        ensures why { IsFalse result → (known_free self.old.producer ≡ 0) ⊎ (self.new.waiting.frames ≡ []) }
        ensures in_order { sent self.new.producer ++ self.new.waiting.frames ≡ sent self.old.producer ++ self.old.waiting.frames }
    {
        if self.logged.waiting.len() == 0 || self.producer.is_full() {
            return false;
        }
        let frame = self.logged.waiting.pop();
        self.producer.push_reserved(frame);
        true
    }

    fn waiting(&self) -> usize
        ensures { result ≡ length self.now.waiting.frames }
    {
        self.logged.waiting.len()
    }

    /// The log so far. It is lawful, what it made was pushed or waits, and what it received was popped.
    pub fn log(&self) -> &[Entry<N>]
        ensures log { result.now ≡ self.now.log }
        ensures holds { Holds P.state P.down_by P.input P.sends P.step self.now }
    {
        &self.logged.log
    }

    /// The side as it is.
    pub fn side(&self) -> &P
        ensures { result.now ≡ self.now.side }
    {
        &self.logged.side
    }

    /// Gives the side back the memory of effects that were looked at. Nothing else changes.
    pub fn recycle(&mut self, effects: P::Effects)
        ensures { self.new ≡ self.old }
    {
        self.logged.side.recycle(effects);
    }

    /// The side and its log, without the rings, so that one end alone can be looked at. Takes no memory.
    pub fn into_log(self) -> (P, Vec<Entry<N>>)
        ensures side { result.0 ≡ self.side }
        ensures log { result.1.items ≡ self.log }
        ensures holds { Holds P.state P.down_by P.input P.sends P.step self }
    {
        let End {
            logged,
            start: _,
            producer: _,
            consumer: _,
        } = self;
        let LoggedSide {
            side,
            log,
            waiting: _,
        } = logged;
        (side, log)
    }
}
