ghost use Rattle.std.specs.Prelude.{◌≡◌};
ghost use Rattle.rpc_machine.specs.declared.command.Command.TheVariants as command;
ghost use Rattle.rpc_machine.specs.Progress.{quiet};
ghost use Rattle.core_telling.specs.Answers.{AnswersTo, effects_in};
ghost use Rattle.link_sides.specs.Sides.{IsQuiet};

use crate::promises::ask_promise;
use crate::refs::{ask_clone_ref, ask_field, ask_host};
use core_telling::{Answer, Core};
use rpc_machine::{Command, Effects};
use rpc_msg::Items;
use std::alloc::Global;

/// What the core answers to a command. What only makes a reference or a promise is asked for by its name, which says that
/// nothing follows.
pub(crate) fn ask(core: &mut Core, alloc: Global, command: Command) -> Answer
    ensures answers { AnswersTo core.old command result core.new }
    ensures says { IsQuiet command (effects_in result) }
{
    match command {
        Command::Host(object) => ask_host(core, alloc, object),
        Command::CloneRef(id) => ask_clone_ref(core, alloc, id),
        Command::Field(id, path) => ask_field(core, alloc, id, path),
        Command::Promise => ask_promise(core, alloc),
        other => core.command(other),
    }
}

/// Nothing follows.
pub(crate) fn no_effects(alloc: Global) -> Effects
    ensures { result ≡ quiet }
{
    Effects {
        sends: Items::new(alloc),
        deliveries: Items::new(alloc),
        answers: Items::new(alloc),
        down: None,
    }
}
