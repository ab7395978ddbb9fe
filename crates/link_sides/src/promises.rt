ghost use Rattle.std.specs.Prelude.{◌≡◌};
ghost use Rattle.rpc_machine.specs.declared.command.Command.TheVariants as command;
ghost use Rattle.rpc_machine.specs.Progress.{quiet};
ghost use Rattle.core_telling.specs.Answers.{AnswersTo, effects_in};

use crate::answers::no_effects;
use core_telling::{Answer, Core, Refused};
use rpc_machine::{Command, Granted};
use std::alloc::Global;

pub(crate) fn ask_promise(core: &mut Core, alloc: Global) -> Answer
    ensures answers { AnswersTo core.old command.Promise result core.new }
    ensures says { effects_in result ≡ quiet }
{
    match core.promise() {
        Ok((promise, made)) => Answer::Done(Granted::Promise(promise, made), no_effects(alloc)),
        Err(refusal) => Answer::Refused(refusal, Command::Promise),
    }
}
