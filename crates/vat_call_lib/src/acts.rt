//! What a player does for a line, and for what its peer sends.

ghost use Rattle.std.specs.Prelude.{◌≡◌, OnOk, IfErr, ℕ, List};
ghost use Rattle.std.specs.Io.KnownBytes.{Appends};
ghost use Rattle.rpc_msg.specs.Payloads.{null_payload};
ghost use Rattle.vat_connection.specs.Connecting.{Gives};
ghost use Rattle.vat_call_lib.specs.Scripts.{StopsAt};

use crate::failure::{BrokenOff, Failure};
use crate::player::{Player, VAT};
use crate::report::tell;
use rpc_journal::JournalEntry;
use rpc_machine::{Command, Event, Granted, Refusal};
use rpc_msg::{Items, Memory, Payload, TaskId};
use script_language::{Act, Closes, GiveFault, Line, LineCommand};
use std::io::{BufRead, Write};
use std::slice;
use vat_connection::Event as Told;

impl<R: BufRead + Drop, W: Write + Drop, T: Write + Drop> Player<R, W, T> {
    /// Plays the line with that number.
    pub(crate) fn play_line(
        &mut self,
        null: &Payload,
        number: usize,
        line: &Line,
    ) -> Result<(), Failure>
        requires { null.now ≡ null_payload }
        ensures { IfErr result (StopsAt number line.now) }
    {
        let act = match self.names.act(self.alloc, null, line) {
            Ok(act) => act,
            Err(GiveFault::Memory) => return Err(Failure::BrokenOff(BrokenOff::Memory)),
            Err(GiveFault::Name(fault)) => return Err(Failure::Unnamed(number, fault)),
        };
        // Each arm by itself: a result that is handed on whole leaves its clauses to be proved by cases.
        match self.act(line, act) {
            Ok(()) => return Ok(()),
            Err(why) => return Err(Failure::BrokenOff(why)),
        }
    }

    // Does what a line says.
    fn act(&mut self, line: &Line, act: Act) -> Result<(), BrokenOff> {
        match act {
            Act::Turn(_) => self.turn(),
            Act::Name(vat, name, reference) => match self.names.name(vat, name, reference) {
                Ok(()) => Ok(()),
                Err(Memory) => Err(BrokenOff::Memory),
            },
            Act::Happens(event) => self.happen(line, event),
            Act::Nothing => Ok(()),
            // a script for one vat has no line that says this
            Act::Tables => Ok(()),
        }
    }

    fn happen(&mut self, line: &Line, event: Event) -> Result<(), BrokenOff> {
        match event {
            Event::Command(_, command) => {
                self.obey(line.command(), command)?;
                self.settle()
            }
            // a script for one vat has no line that says this
            Event::Deliver(_) => Ok(()),
        }
    }

    /// Takes one frame.
    pub(crate) fn turn(&mut self) -> Result<(), BrokenOff> {
        if self.frames.hand_next(&mut self.vat)? {
            return self.settle();
        }
        // whoever would read an Abort has gone
        self.hear()
    }

    /// Answers a task with the null payload.
    pub(crate) fn answer(&mut self, null: &Payload, task: TaskId) -> Result<(), BrokenOff> {
        let payload = null.copy(self.alloc)?;
        let refs = Items::new(self.alloc);
        self.obey(None, Command::Answer(task, payload, refs))?;
        self.settle()
    }

    // Has the vat obey, and keeps what it grants; a refusal is told.
    fn obey(&mut self, said: Option<&LineCommand>, command: Command) -> Result<(), BrokenOff> {
        let closes = Closes::of(&command);
        match self.vat.command(command) {
            Ok(granted) => {
                self.open.close(closes);
                self.bind(said, granted)
            }
            Err(refused) if refused.refusal == Refusal::Memory => Err(BrokenOff::Memory),
            Err(refused) => tell(
                self.alloc,
                &mut self.told,
                &JournalEntry::Refused(VAT, refused.refusal.code()),
            ),
        }
    }

    // Binds the names that a line gives to what its command was granted; a call that it made is open.
    fn bind(&mut self, said: Option<&LineCommand>, granted: Granted) -> Result<(), BrokenOff> {
        if let Granted::Call(call) = granted {
            self.open.add_call(call)?;
        }
        if let Some(said) = said {
            self.names.bind(VAT, said, granted)?;
        }
        Ok(())
    }

    // Hears what came of a step, sends what is to be sent, and hears what came of that.
    fn settle(&mut self) -> Result<(), BrokenOff> {
        self.hear()?;
        self.send()?;
        self.hear()
    }

    // Sends what there is, at once.
    fn send(&mut self) -> Result<(), BrokenOff>
        ensures { OnOk result ((bytes : List ℕ) × Gives self.old.vat bytes self.new.vat × Appends (W.contents self.old.out) (W.contents self.new.out) bytes) }
    {
        let bytes = self.vat.outgoing();
        match self.out.write_all(bytes.as_slice()) {
            Ok(()) => {}
            Err(_) => return Err(BrokenOff::Unwritten),
        }
        match self.out.flush() {
            Ok(()) => Ok(()),
            Err(_) => Err(BrokenOff::Unwritten),
        }
    }

    // Tells what there is to tell.
    fn hear(&mut self) -> Result<(), BrokenOff> {
        for _ in 0..u64::MAX {
            let Some(told) = self.vat.next_event() else {
                break;
            };
            if let Some(entry) = self.note(told)? {
                tell(self.alloc, &mut self.told, &entry)?;
            }
        }
        Ok(())
    }

    // Keeps what the vat handed over: gives the entry that tells it, if a journal has one.
    fn note(&mut self, told: Told) -> Result<Option<JournalEntry>, BrokenOff> {
        let entry = match told {
            Told::Served(call) => {
                self.open.add_task(call.task, call.stamp)?;
                self.names
                    .note_deliveries(self.alloc, VAT, slice::from_ref(&call))?;
                JournalEntry::Delivered(VAT, call)
            }
            Told::Ended(ended) => {
                self.open.close(Closes::Call(ended.call));
                self.names
                    .note_outcomes(self.alloc, VAT, slice::from_ref(&ended))?;
                JournalEntry::Ended(VAT, ended)
            }
            Told::Down(number, _reason) => JournalEntry::Down(VAT, number),
            _other => return Ok(None),
        };
        Ok(Some(entry))
    }
}
