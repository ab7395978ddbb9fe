ghost use Rattle.std.specs.Prelude.{◌≡◌, true, IfOk, IfErr};
ghost use Rattle.rpc_msg.specs.declared.message.Message.{Message};
ghost use Rattle.rpc_machine.specs.Queries.{is_new};
ghost use Rattle.link_rings.specs.declared.fault.LinkFault.TheVariants as fault;
ghost use Rattle.link_rings.specs.Seats.{place, Sits};
ghost use Rattle.link_rings.specs.Logs.{log_of, framed};
ghost use Rattle.laws_merge.specs.Logs.{made_by};
ghost use Rattle.link_logs.specs.Steps.{StepsSo, input_of, sends_of};
ghost use Rattle.link_sides.specs.Sides.{down_by};
ghost use Rattle.link_ends.specs.Commands.{IsAnswer};
ghost use Rattle.link_ends.specs.Ends.{held, new_held};
ghost use Rattle.link_ends.specs.Seats.{new_seat, CommandsSo, TakesSo};

use crate::{Frame, Turn};
use laws_ends::new_is_start;
use link_logs::Note;
use link_rings::{Entry, LinkFault, Party};
use link_sides::{Answer, Core, VatSide};
use rpc_machine::{Command, Effects};
use rpc_msg::Message;
use std::alloc::Global;

/// The core of a vat with its log, and with no rings: it keeps all frames that it makes, and those that come are handed to it.
#[derive(Drop)]
pub struct Seat {
    seat: link_rings::Seat<VatSide, Note, Message>,
}

impl Seat {
    /// A seat of a new core, with an empty log. If a growth was refused the core comes back, with `Memory`.
    pub fn new(alloc: Global, core: Core) -> Result<Seat, (LinkFault, Core)>
        requires { is_new core ≡ true }
        ensures seat { IfOk result (λ seat. seat.seat ≡ new_seat core) }
        ensures fault { IfErr result (λ e. e.0 ≡ fault.Memory) }
        ensures back { IfErr result (λ e. e.1 ≡ core) }
    {
        new_is_start();
        let side = match VatSide::new(alloc, core) {
            Ok(side) => side,
            Err(core) => return Err((LinkFault::Memory, core)),
        };
        match link_rings::Seat::new(alloc, side) {
            Ok(seat) => return Ok(Seat { seat }),
            Err(side) => return Err((LinkFault::Memory, side.into_core())),
        }
    }

    /// Has the core obey a command, and answers what it answers, as `VatEnd::command` does; the messages are among the frames
    /// that it keeps.
    pub fn command(&mut self, command: Command) -> Answer
        ensures commands { CommandsSo self.old.seat command result self.new.seat }
        ensures answers { IsAnswer command result }
    {
        self.seat.command(command)
    }

    /// Hands the core a frame: one entry is added to the log. Gives the effects except for the messages, or the number with which
    /// the vat is down. That is 41 if the frame's number is not the count of those received, else 42 if it acknowledges more
    /// than was made. Such a frame is not received. A vat that is down stays as it is. Never `Idle`.
    pub fn take(&mut self, frame: Frame) -> Turn
        ensures { TakesSo self.old.seat frame result self.new.seat }
    {
        self.seat.take(frame)
    }

    /// All frames that its log made, in order.
    pub fn made(&self) -> &[Frame]
        ensures frames { result.now ≡ self.now.seat.waiting.frames }
        ensures all { framed result.now ≡ made_by (log_of input_of sends_of StepsSo self.now.seat.log) }
    {
        self.seat.made()
    }

    /// Gives the core back the memory of effects that were looked at. Nothing else changes, and no memory is taken.
    pub fn recycle(&mut self, effects: Effects)
        ensures { self.new.seat ≡ self.old.seat }
    {
        self.seat.recycle(effects);
    }

    /// The number with which its vat went down, if it is down.
    pub fn down(&self) -> Option<u16>
        ensures { result ≡ down_by self.now.seat.side }
    {
        self.side().down()
    }

    /// Its vat as it is, with the journal entries that it wrote.
    pub fn side(&self) -> &VatSide
        ensures { result.now ≡ self.now.seat.side }
    {
        self.seat.side()
    }

    /// The log so far. It is lawful, and the frames that the seat has are those that the log made.
    pub fn log(&self) -> &[Entry<Note>]
        ensures log { result.now ≡ self.now.seat.log }
        ensures sits { Sits input_of sends_of StepsSo self.now.seat.start (place held self.now.seat) }
    {
        self.seat.log()
    }
}
