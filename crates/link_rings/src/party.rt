ghost use Rattle.std.specs.Prelude.{◌≡◌, ℕ, ◌<◌, Option, None, Some, List, length, OnOk, IfOk, IfErr};
ghost use Rattle.laws_merge.specs.Machine.{Input};
ghost use Rattle.link_rings.specs.Parties.{is_receipt, Obeys, Receives, Shuts};

use crate::queue::Waiting;

/// A side of a link: it obeys commands and receives messages, and notes each step for the log. `N` is what it notes of a
/// step, and `M` are its messages.
///
/// It is handed the list of frames that wait, and puts the messages of a step there. So it says itself what becomes of a
/// step for which there is no memory: it goes down, and tells so by one message, for which there is always room.
pub trait Party<N, M>: Drop {
    type State;

    type Command;

    type Answer;

    type Effects;

    /// Its state, as its steps see it.
    ghost state: { Self → Self.State };

    /// The number with which it went down.
    ghost down_by: { Self.State → Option ℕ };

    /// What a step was a step of: a command, a shut or a message.
    ghost input: { N → Input Self.Command M };

    /// The messages that a step sent.
    ghost sends: { N → List M };

    /// Which steps it has: from a state, as noted, to a state.
    ghost step: { Self.State → N → Self.State → Type 0 };

    /// What may be answered to a command that is noted so.
    ghost answers: { Self.Command → N → Self.Answer → Type 0 };

    /// What may be answered to a command by a side that is down.
    ghost refuses: { Self.Command → Self.Answer → Type 0 };

    /// What may be told of a message whose step is noted so.
    ghost tells: { N → Self.Effects → Type 0 };

    /// The number with which it went down, if it is down.
    fn down(&self) -> Option<u16>
        ensures { result ≡ down_by (state self.now) };

    /// Whether the step received a message.
    fn received(note: &N) -> bool
        ensures { result ≡ is_receipt (input note.now) };

    /// How many messages the step sent.
    fn sent(note: &N) -> u64
        ensures { result ≡ length (sends note.now) };

    /// Obeys a command, of a side that is up: a step of it, or a shut, which takes the side down. `room` says that the log
    /// has room for one more step behind this one: without, the side goes down.
    fn obey(
        &mut self,
        command: Self::Command,
        room: bool,
        waiting: &mut Waiting<M>,
    ) -> (N, Self::Answer)
        requires up { down_by (state self.old) ≡ None }
        requires free { 0 < waiting.old.room }
        ensures obeys { Obeys down_by input sends step (state self.old) waiting.old command room result.0 (state self.new) waiting.new }
        ensures answers { answers command result.0 result.1 };

    /// Refuses a command, of a side that is down.
    fn refuse(&self, command: Self::Command) -> Self::Answer
        ensures { refuses command result };

    /// Receives a message, at a side that is up: what came of it, or the number with which the side is down then. `room` is
    /// as for a command.
    fn receive(
        &mut self,
        message: M,
        room: bool,
        waiting: &mut Waiting<M>,
    ) -> (N, Result<Self::Effects, u16>)
        requires up { down_by (state self.old) ≡ None }
        requires free { 0 < waiting.old.room }
        ensures receives { Receives down_by input sends step (state self.old) waiting.old message room result.0 (state self.new) waiting.new }
        ensures up { OnOk result.1 (down_by (state self.new) ≡ None) }
        ensures told { IfOk result.1 (tells result.0) }
        ensures fell { IfErr result.1 (λ n. down_by (state self.new) ≡ Some n) };

    /// Takes a side that is up down, with that number.
    fn shut(&mut self, number: u16, waiting: &mut Waiting<M>) -> N
        requires up { down_by (state self.old) ≡ None }
        requires free { 0 < waiting.old.room }
        ensures { Shuts down_by input sends step (state self.old) waiting.old number result (state self.new) waiting.new };

    /// Takes back the memory of effects that were looked at, for those of later steps. Nothing that contracts see changes.
    fn recycle(&mut self, effects: Self::Effects)
        ensures { self.new ≡ self.old };
}
