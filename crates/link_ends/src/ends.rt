ghost use Rattle.std.specs.Prelude.{◌≡◌};
ghost use Rattle.link_rings.specs.Ends.{IsSameEnd, Flushes, Holds};
ghost use Rattle.link_logs.specs.Steps.{StepsSo, input_of, sends_of};
ghost use Rattle.link_sides.specs.Sides.{down_by};
ghost use Rattle.link_ends.specs.Commands.{IsAnswer};
ghost use Rattle.link_ends.specs.Ends.{held, Takes, TurnsSo};
ghost use Rattle.rpc_machine.specs.declared.command.Command.TheVariants as command;
ghost use Rattle.rpc_machine.specs.declared.command.Granted.TheVariants as granted;
ghost use Rattle.link_sides.specs.Answer.TheVariants as answer;

use crate::Turn;
use link_logs::Note;
use link_rings::{End, Entry, Party};
use link_sides::{Answer, VatSide};
use rpc_machine::{Command, Effects};
use rpc_msg::Message;
use std::marker::PhantomData;

/// Of an end of the vat A.
#[derive(Clone, Copy, Drop)]
pub struct AtA;

/// Of an end of the vat B.
#[derive(Clone, Copy, Drop)]
pub struct AtB;

/// The end of the vat A. None of its calls waits.
pub type EndA = VatEnd<AtA>;

/// The end of the vat B.
pub type EndB = VatEnd<AtB>;

/// One end of a link of two vats: the core of a vat with its log, and its ends of two rings. `V` says which of the two it is, so
/// that neither stands in for the other.
#[derive(Drop)]
pub struct VatEnd<V> {
    pub(crate) end: End<VatSide, Note, Message>,
    pub(crate) at: PhantomData<V>,
}

impl<V> VatEnd<V> {
    /// Has the core obey a command, and answers what it answers, with its effects except for the messages, which wait as frames
    /// for `flush`. One entry is added to the log. If log or waiting frames can't grow for it, the vat goes down with fault
    /// 33, and the command is refused with `Down`, as is each command of a vat that is down, which changes nothing.
    pub fn command(&mut self, command: Command) -> Answer
        ensures end { IsSameEnd self.old.end self.new.end }
        ensures takes { Takes self.old.end command result self.new.end }
        ensures answers { IsAnswer command result }
    {
        self.end.command(command)
    }

    /// Pops one frame, if it finds one, and has the core receive its message: one entry is added to the log. `Idle` if it
    /// found none, else the effects except for the messages, or the number with which the vat is down. One that is down pops none.
    pub fn turn(&mut self) -> Turn
        ensures end { IsSameEnd self.old.end self.new.end }
        ensures turns { TurnsSo self.old.end result self.new.end }
    {
        self.end.turn()
    }

    /// Pushes frames that wait, the oldest first, while the ring has room, and answers how many. Takes no memory.
    pub fn flush(&mut self) -> usize
        ensures end { IsSameEnd self.old.end self.new.end }
        ensures flushes { Flushes self.old.end result self.new.end }
    {
        self.end.flush()
    }

    /// Gives the core back the memory of effects that were looked at. Nothing else changes, and no memory is taken.
    pub fn recycle(&mut self, effects: Effects)
        ensures { self.new.end ≡ self.old.end }
    {
        self.end.recycle(effects);
    }

    /// The number with which its vat went down, if it is down.
    pub fn down(&self) -> Option<u16>
        ensures { result ≡ down_by self.now.end.side }
    {
        self.side().down()
    }

    /// Its vat as it is, with the journal entries that it wrote.
    pub fn side(&self) -> &VatSide
        ensures { result.now ≡ self.now.end.side }
    {
        self.end.side()
    }

    /// The log so far. It is lawful, what it made was pushed or waits, and what it received was popped.
    pub fn log(&self) -> &[Entry<Note>]
        ensures log { result.now ≡ self.now.end.log }
        ensures holds { Holds held down_by input_of sends_of StepsSo self.now.end }
    {
        self.end.log()
    }

    /// Its vat and its log, without the rings, so that one end alone can be looked at: the vat has the journal entries for which
    /// those of the log stand. Takes no memory.
    pub fn into_log(self) -> (VatSide, Vec<Entry<Note>>)
        ensures side { result.0 ≡ self.end.side }
        ensures log { result.1.items ≡ self.end.log }
        ensures holds { Holds held down_by input_of sends_of StepsSo self.end }
    {
        let VatEnd { end, at: _ } = self;
        end.into_log()
    }

    /// Takes the vat down with that number: one Abort waits as a frame, and nothing else follows. One that is down stays as it
    /// is, and nothing follows. Takes no memory.
    pub fn shut(&mut self, number: u16) -> Effects
        ensures { Takes self.old.end (command.Shut number) (answer.Done granted.Done result) self.new.end }
    {
        match self.command(Command::Shut(number)) {
            Answer::Done(_, effects) => effects,
            Answer::Refused(_, _) => unreachable!(),
        }
    }
}
