ghost use Rattle.std.specs.Prelude.{◌≡◌};
ghost use Rattle.rpc_machine.specs.declared.command.Command.TheVariants as command;
ghost use Rattle.rpc_machine.specs.Progress.{quiet};
ghost use Rattle.laws_authority.specs.Authority.{GivesNoMore};
ghost use Rattle.vat_core.specs.Answers.{AnswersTo, effects_in};
ghost use Rattle.vat_core.specs.Given.{ObeysGiven};

use crate::vat::Core;
use laws_authority::{authority_is_given, authority_is_kept};
use rpc_machine::{Command, Effects, Granted, Refusal};
use rpc_msg::Items;

/// What comes of a command.
pub enum Answer {
    /// It is done: what it grants, and what follows.
    Done(Granted, Effects),
    /// It is refused, and handed back; nothing is changed.
    Refused(Refusal, Command),
}

impl Core {
    /// Takes a command of any kind, and answers what the call of its name does. A command that is refused, as the call of its
    /// name says, changes nothing and is handed back whole.
    ///
    /// The peer may reach what it could reach before and what the command gives, and calls of the peer are delivered to these
    /// objects alone. In each run that leads here, they were given to the peer (docs/laws/authority.md).
    pub fn command(&mut self, command: Command) -> Answer
        ensures answers { AnswersTo self.old command result self.new }
        ensures authority { GivesNoMore self.old command (effects_in result) self.new }
        ensures given { ObeysGiven self.old command result self.new }
    {
        authority_is_kept();
        authority_is_given();
        self.obey(command)
    }

    fn obey(&mut self, command: Command) -> Answer
        ensures { AnswersTo self.old command result self.new }
    {
        match command {
            Command::Host(object) => self.obey_host(object),
            Command::CloneRef(id) => self.obey_clone_ref(id),
            Command::DropRef(id) => self.obey_drop_ref(id),
            Command::Bootstrap => self.obey_bootstrap(),
            Command::Call(call) => self.obey_call(call),
            Command::Field(id, path) => self.obey_field(id, path),
            Command::Promise => self.obey_promise(),
            Command::Resolve(promise, reference) => self.obey_resolve(promise, reference),
            Command::Reject(promise, exception) => self.obey_reject(promise, exception),
            Command::Answer(task, payload, refs) => self.obey_answer(task, payload, refs),
            Command::Fail(task, exception) => self.obey_fail(task, exception),
            Command::Finish(id) => self.obey_finish(id),
            Command::Advance(id) => self.obey_advance(id),
            Command::Shut(number) => self.obey_shut(number),
        }
    }

    fn obey_shut(&mut self, number: u16) -> Answer
        ensures { AnswersTo self.old (command.Shut number) result self.new }
    {
        let effects = self.shut(number);
        Answer::Done(Granted::Done, effects)
    }

    // Nothing follows.
    pub(crate) fn nothing(&self) -> Effects
        ensures { result ≡ quiet }
    {
        let alloc = self.machine.alloc;
        Effects {
            sends: Items::new(alloc),
            deliveries: Items::new(alloc),
            answers: Items::new(alloc),
            down: None,
        }
    }
}
