use crate::answers::no_effects;
use crate::commands::{obey, shut};
use crate::kept::Kept;
use crate::receipt::receive;
use core_telling::{Answer, Core};
use link_logs::Note;
use link_rings::{Party, Waiting};
use rpc_journal::{Counts, JournalEntry};
use rpc_machine::{Command, Effects, Granted, Refusal};
use rpc_msg::{Memory, Message};
use std::alloc::Global;
use std::marker::Model;

/// A real vat as a side of a pair on threads: its core, and the journal entries of its steps. Contracts see it as those two.
pub struct VatSide {
    // On the heap, so that a side moves as a pointer: clang takes minutes for a `link` whose sides have 5,000 bytes.
    kept: Box<Kept>,
}

// By hand, as that of a core.
impl Drop for VatSide {
    fn drop(self) {
        let VatSide { kept: _ } = self;
    }
}

impl Model for VatSide {
    ghost use Rattle.link_logs.specs.Steps.{Held};
    ghost use Rattle.link_sides.specs.Rooms.{held_of, held_code, IsReady};

    ghost Value = { Held };

    ghost coded = { held_code };

    ghost view = { λ a. held_of a.kept.value };

    ghost invariant = { λ a. IsReady a.kept.value };
}

impl VatSide {
    ghost use Rattle.std.specs.Prelude.{◌≡◌, [], None, Some, IsTrue, IfOk, IfErr};
    ghost use Rattle.rpc_machine.specs.Numbers.{want_of_room};
    ghost use Rattle.rpc_machine.specs.Queries.{counts_of};
    ghost use Rattle.link_sides.specs.Sides.{down_by};

    /// A side of that core, which is up, with nothing written. If a growth is refused the core comes back.
    pub fn new(alloc: Global, core: Core) -> Result<VatSide, Core>
        ensures side { IfOk result (λ side. side ≡ record { core = core; journal = [] }) }
        ensures back { IfErr result (λ back. back ≡ core) }
    {
        match Box::new(alloc, Kept::new(alloc, core)?) {
            Ok(kept) => Ok(VatSide { kept }),
            Err(failed) => Err(failed.value.into_core()),
        }
    }

    /// Its core.
    pub fn into_core(self) -> Core
        ensures { result ≡ self.core }
    {
        let VatSide { kept } = self;
        Box::into_inner(kept).into_core()
    }

    /// The entries of its steps, the oldest first.
    pub fn journal(&self) -> &[JournalEntry]
        ensures { result.now ≡ self.now.journal }
    {
        self.kept.journal.entries()
    }

    /// Whether its vat went down with 33 and met a limit then (`Core::met_limit`): if it says no of one that is down with 33,
    /// memory was wanting. Takes no memory.
    pub fn met_limit(&self) -> bool
        ensures { IsTrue result → down_by self.now ≡ Some want_of_room }
    {
        self.kept.core.met_limit()
    }

    /// The counts of its exports and imports. `Memory` if a growth was refused.
    pub fn counts(&self) -> Result<Counts, Memory>
        ensures { IfOk result (λ counts. counts ≡ counts_of self.now.core) }
    {
        self.kept.core.counts()
    }
}

impl Party<Note, Message> for VatSide {
    ghost use Rattle.link_logs.specs.Steps.{StepsSo, input_of, sends_of};
    ghost use Rattle.link_sides.specs.Sides.{down_by, AnswersSo, TellsSo, when_down};
    ghost use Rattle.std.specs.Prelude.{◌≡◌};

    type State = VatSide;

    type Command = Command;

    type Answer = Answer;

    type Effects = Effects;

    ghost state = { λ a. a };

    ghost down_by = { down_by };

    ghost input = { input_of };

    ghost sends = { sends_of };

    ghost step = { StepsSo };

    ghost answers = { AnswersSo };

    ghost refuses = { λ c a. a ≡ when_down c };

    ghost tells = { TellsSo };

    fn down(&self) -> Option<u16> {
        self.kept.core.down()
    }

    fn received(note: &Note) -> bool {
        note.received()
    }

    fn sent(note: &Note) -> u64 {
        note.sent as u64
    }

    fn obey(
        &mut self,
        command: Command,
        room: bool,
        waiting: &mut Waiting<Message>,
    ) -> (Note, Answer) {
        obey(&mut self.kept, command, room, waiting)
    }

    fn refuse(&self, command: Command) -> Answer {
        match command {
            Command::Shut(_) => Answer::Done(Granted::Done, no_effects(self.kept.alloc)),
            other => Answer::Refused(Refusal::Down, other),
        }
    }

    fn receive(
        &mut self,
        message: Message,
        room: bool,
        waiting: &mut Waiting<Message>,
    ) -> (Note, Result<Effects, u16>) {
        receive(&mut self.kept, message, room, waiting)
    }

    fn shut(&mut self, number: u16, waiting: &mut Waiting<Message>) -> Note {
        shut(&mut self.kept, number, waiting)
    }

    fn recycle(&mut self, effects: Effects) {
        self.kept.core.recycle(effects);
    }
}
