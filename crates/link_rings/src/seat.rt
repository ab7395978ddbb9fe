use crate::entry::Entry;
use crate::frame::Frame;
use crate::logged_side::LoggedSide;
use crate::party::Party;
use crate::queue::Made;
use crate::turn::Turn;
use std::alloc::Global;
use std::marker::Model;
use std::snapshot::Snapshot;

/// A side with its log, and with no rings: it keeps all frames that it makes, and those that come are handed to it.
#[derive(Drop)]
pub struct Seat<P: Party<N, M>, N, M> {
    // its frames are in `made` between two steps
    logged: LoggedSide<P, N, M>,
    made: Made<M>,
    start: Snapshot<P>,
}

impl<P: Party<N, M>, N, M> Model for Seat<P, N, M> {
    ghost use Rattle.link_rings.specs.Seats.{Sat, Sits};
    ghost use Rattle.link_rings.specs.LoggedSides.{at, IsReady};

    ghost Value = { Sat P M N };

    ghost view = { λ a. record { start = a.start.value; side = a.logged.side; log = a.logged.log.items; waiting = a.made } };

    ghost invariant = { λ a. Sits P.input P.sends P.step (P.state a.start.value) (at P.state (record a.logged { waiting = a.made })) × IsReady P.state P.down_by (record a.logged { waiting = a.made }) };
}

impl<P: Party<N, M>, N: Drop, M: Drop> Seat<P, N, M> {
    ghost use Rattle.std.specs.Prelude.{◌≡◌, None, [], ◌++◌, IfOk, IfErr};
    ghost use Rattle.laws_merge.specs.Logs.{made_by};
    ghost use Rattle.link_rings.specs.Logs.{log_of, framed};
    ghost use Rattle.link_rings.specs.Seats.{place, CommandsAt, TakesAt, Sits};

    /// A seat of a side that is up, with an empty log. If a growth was refused the side comes back.
    pub fn new(alloc: Global, side: P) -> Result<Self, P>
        requires up { P.down_by (P.state side) ≡ None }
        ensures ok { IfOk result (λ seat. seat ≡ record { start = side; side = side; log = []; waiting = record { frames = []; made = 0; heard = 0; room = 1 } }) }
        ensures err { IfErr result (λ back. back ≡ side) }
    {
        let start = Snapshot::of(&side);
        match LoggedSide::new(alloc, side) {
            Ok(mut logged) => {
                let made = Made::of(&mut logged.waiting, alloc);
                return Ok(Seat {
                    logged,
                    made,
                    start,
                });
            }
            Err(side) => return Err(side),
        }
    }

    /// Has the side obey a command. While it is up one entry is added to the log: of the command with what it answers, or of
    /// a shut, which takes the side down. One that is down refuses the command, and nothing changes.
    pub fn command(&mut self, command: P::Command) -> P::Answer
        ensures start { self.new.start ≡ self.old.start }
        ensures commands { CommandsAt P.down_by P.input P.sends P.step P.answers P.refuses (P.down_by (P.state self.old.side)) (place P.state self.old) command result (place P.state self.new) }
    {
        if self.logged.side.down().is_some() {
            return self.logged.side.refuse(command);
        }
        self.made.lay_out(&mut self.logged.waiting);
        let answer = self.logged.obey(command);
        self.made.take_back(&mut self.logged.waiting);
        answer
    }

    /// Hands the side a frame. While it is up one entry is added to the log: of the frame; or of a shut, if its number is
    /// not the count of those received (41) or it acknowledges more than was made (42). One that is down stays as it is.
    /// Never `Idle`.
    pub fn take(&mut self, frame: Frame<M>) -> Turn<P::Effects>
        ensures start { self.new.start ≡ self.old.start }
        ensures takes { TakesAt P.down_by P.input P.sends P.step P.tells (P.down_by (P.state self.old.side)) (place P.state self.old) frame result (place P.state self.new) }
    {
        if let Some(number) = self.logged.side.down() {
            return Turn::Down(number);
        }
        self.made.lay_out(&mut self.logged.waiting);
        let taken = self.logged.take(frame);
        self.made.take_back(&mut self.logged.waiting);
        match taken {
            Ok(effects) => return Turn::Handled(effects),
            Err(number) => return Turn::Down(number),
        }
    }

    /// All frames that its log made, in order.
    pub fn made(&self) -> &[Frame<M>]
        ensures frames { result.now ≡ self.now.waiting.frames }
        ensures all { framed result.now ≡ made_by (log_of P.input P.sends P.step self.now.log) }
    {
        self.made.frames()
    }

    /// The side as it is.
    pub fn side(&self) -> &P
        ensures { result.now ≡ self.now.side }
    {
        &self.logged.side
    }

    /// Gives the side back the memory of effects that were looked at. Nothing else changes.
    pub fn recycle(&mut self, effects: P::Effects)
        ensures { self.new ≡ self.old }
    {
        self.logged.side.recycle(effects);
    }

    /// The log so far. It is lawful, and the frames that the seat has are those that the log made.
    pub fn log(&self) -> &[Entry<N>]
        ensures log { result.now ≡ self.now.log }
        ensures sits { Sits P.input P.sends P.step (P.state self.now.start) (place P.state self.now) }
    {
        &self.logged.log
    }
}
