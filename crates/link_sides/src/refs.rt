ghost use Rattle.std.specs.Prelude.{◌≡◌};
ghost use Rattle.rpc_machine.specs.declared.command.Command.TheVariants as command;
ghost use Rattle.rpc_machine.specs.Progress.{quiet};
ghost use Rattle.core_telling.specs.Answers.{AnswersTo, effects_in};

use crate::answers::no_effects;
use core_telling::{Answer, Core, Refused};
use rpc_machine::{Command, Granted};
use rpc_msg::{CallId, Items, ObjectId, Op, RefId};
use std::alloc::Global;

pub(crate) fn ask_host(core: &mut Core, alloc: Global, object: ObjectId) -> Answer
    ensures answers { AnswersTo core.old (command.Host object) result core.new }
    ensures says { effects_in result ≡ quiet }
{
    match core.host(object) {
        Ok(made) => Answer::Done(Granted::Reference(made), no_effects(alloc)),
        Err(refusal) => Answer::Refused(refusal, Command::Host(object)),
    }
}

pub(crate) fn ask_clone_ref(core: &mut Core, alloc: Global, id: RefId) -> Answer
    ensures answers { AnswersTo core.old (command.CloneRef id) result core.new }
    ensures says { effects_in result ≡ quiet }
{
    match core.clone_ref(id) {
        Ok(made) => Answer::Done(Granted::Reference(made), no_effects(alloc)),
        Err(refusal) => Answer::Refused(refusal, Command::CloneRef(id)),
    }
}

pub(crate) fn ask_field(core: &mut Core, alloc: Global, id: CallId, path: Items<Op>) -> Answer
    ensures answers { AnswersTo core.old (command.Field id path) result core.new }
    ensures says { effects_in result ≡ quiet }
{
    match core.field(id, path) {
        Ok(made) => Answer::Done(Granted::Reference(made), no_effects(alloc)),
        Err(Refused { refusal, back }) => Answer::Refused(refusal, Command::Field(id, back)),
    }
}
