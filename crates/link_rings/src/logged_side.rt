ghost use Rattle.std.specs.Prelude.{◌≡◌, ◌+◌, ◌<◌, ◌≤◌, None, Some, [], vec_len, IfOk, IfErr};
ghost use Rattle.link_rings.specs.Entries.{Commands, TakesOrFalls, LogsFrame, LogsShut};
ghost use Rattle.link_rings.specs.LoggedSides.{at, IsReady};
ghost use Rattle.link_rings.specs.Links.{fault_number};

use crate::entry::Entry;
use crate::fault::LinkFault;
use crate::frame::Frame;
use crate::party::Party;
use crate::queue::Waiting;
use std::alloc::Global;

/// A side, its log, and the frames that wait to be pushed. While the side is up the log has room for one more entry and the
/// list for one more frame: so a side for which a growth is refused can go down, say so, and have it logged.
#[derive(Drop)]
pub(crate) struct LoggedSide<P, N, M> {
    pub(crate) side: P,
    pub(crate) log: Vec<Entry<N>>,
    pub(crate) waiting: Waiting<M>,
}

impl<P: Party<N, M>, N: Drop, M: Drop> LoggedSide<P, N, M> {
    /// A side with an empty log. If a growth was refused the side comes back.
    pub(crate) fn new(alloc: Global, side: P) -> Result<Self, P>
        ensures side { IfOk result (λ d. d.side ≡ side) }
        ensures log { IfOk result (λ d. d.log.items ≡ []) }
        ensures waiting { IfOk result (λ d. d.waiting ≡ record { frames = []; made = 0; heard = 0; room = 1 }) }
        ensures ready { IfOk result (IsReady P.state P.down_by) }
        ensures err { IfErr result (λ back. back ≡ side) }
    {
        let Ok(waiting) = Waiting::new(alloc) else {
            return Err(side);
        };
        let Ok(log) = Vec::with_capacity(alloc, 1) else {
            return Err(side);
        };
        Ok(LoggedSide { side, log, waiting })
    }

    /// A command to a side that is up: one entry, of it or of a shut.
    pub(crate) fn obey(&mut self, command: P::Command) -> P::Answer
        requires up { P.down_by (P.state self.old.side) ≡ None }
        requires ready { IsReady P.state P.down_by self.old }
        ensures commands { Commands P.down_by P.input P.sends P.step P.answers (at P.state self.old) command result (at P.state self.new) }
        ensures ready { IsReady P.state P.down_by self.new }
    {
        let room = self.log.reserve(2).is_ok();
        let first = self.waiting.made();
        let heard = self.waiting.heard();
        let (note, answer) = self.side.obey(command, room, &mut self.waiting);
        self.log.push_reserved(Entry {
            note,
            seq: 0,
            ack: 0,
            first,
            heard,
        });
        answer
    }

    /// A frame to a side that is up: one entry, of it or of a shut; and its effects, or the number with which the side is
    /// down then.
    pub(crate) fn take(&mut self, frame: Frame<M>) -> Result<P::Effects, u16>
        requires up { P.down_by (P.state self.old.side) ≡ None }
        requires ready { IsReady P.state P.down_by self.old }
        ensures takes { TakesOrFalls P.down_by P.input P.sends P.step P.tells (at P.state self.old) frame result (at P.state self.new) }
        ensures ready { IsReady P.state P.down_by self.new }
    {
        if frame.seq != self.waiting.heard() {
            return Err(self.shut(LinkFault::BadSeq));
        }
        if frame.ack > self.waiting.made() {
            return Err(self.shut(LinkFault::BadAck));
        }
        self.receive(frame)
    }

    // A frame that is the next one.
    fn receive(&mut self, frame: Frame<M>) -> Result<P::Effects, u16>
        requires up { P.down_by (P.state self.old.side) ≡ None }
        requires ready { IsReady P.state P.down_by self.old }
        requires seq { frame.seq ≡ self.old.waiting.heard }
        requires ack { frame.ack ≤ self.old.waiting.made }
        ensures takes { TakesOrFalls P.down_by P.input P.sends P.step P.tells (at P.state self.old) frame result (at P.state self.new) }
        ensures ready { IsReady P.state P.down_by self.new }
    {
        let _capacity = self.log.capacity();
        let room = self.log.reserve(2).is_ok();
        let first = self.waiting.made();
        self.waiting.hear();
        let heard = self.waiting.heard();
        let Frame { seq, ack, message } = frame;
        let (note, told) = self.side.receive(message, room, &mut self.waiting);
        self.log.push_reserved(Entry {
            note,
            seq,
            ack,
            first,
            heard,
        });
        told
    }

    // Takes a side that is up down, with the number of that fault.
    fn shut(&mut self, fault: LinkFault) -> u16
        requires up { P.down_by (P.state self.old.side) ≡ None }
        requires ready { IsReady P.state P.down_by self.old }
        ensures number { result ≡ fault_number fault }
        ensures logs { (e : _) × LogsShut P.down_by P.input P.sends P.step (at P.state self.old) (at P.state self.new) result e }
        ensures ready { IsReady P.state P.down_by self.new }
    {
        let number = fault.code();
        let first = self.waiting.made();
        let heard = self.waiting.heard();
        let note = self.side.shut(number, &mut self.waiting);
        self.log.push_reserved(Entry {
            note,
            seq: 0,
            ack: 0,
            first,
            heard,
        });
        number
    }
}
