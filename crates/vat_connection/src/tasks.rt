//! Tasks, which are delivered calls, are settled.
ghost use Rattle.std.specs.Prelude.{◌≡◌, Some, IsSome, IfErr};
ghost use Rattle.rpc_machine.specs.declared.command.Command.TheVariants as command;
ghost use Rattle.rpc_machine.specs.declared.command.Granted.TheVariants as granted;
ghost use Rattle.vat_connection.specs.Calling.{answered, exception_of, results_of};
ghost use Rattle.vat_connection.specs.Connecting.{AsksToFit};

use crate::connection::Connection;
use rpc_machine::Command;
use rpc_msg::{Exception, Items, Payload, RefId, TaskId};
use vat_host::Refused;

impl Connection {
    /// Gives a task its results, as `Core::answer` does. Refused with `Full` too, if they may be too large for the frame that
    /// carries them (docs/messages.md, "What fits"), or if there is no place for one export more for each reference
    /// (docs/protocol.md, "Limits"). A refusal changes nothing, and the results are handed back.
    pub fn answer(
        &mut self,
        task: TaskId,
        payload: Payload,
        refs: Items<RefId>,
    ) -> Result<(), Refused<(Payload, Items<RefId>)>>
        ensures asks { AsksToFit self.old (command.Answer task payload refs) (answered result (λ _. granted.Done) (λ e. e.refusal)) self.new }
        ensures handed_back { IfErr result (λ e. (e.back.0 ≡ payload) × (e.back.1 ≡ refs)) }
    {
        match self.speaker.command(Command::Answer(task, payload, refs)) {
            Ok(_granted) => return Ok(()),
            Err(refused) => return Err(results_back(refused)),
        }
    }

    /// Gives a task an exception, as `Core::fail` does. Refused with `Full` too, if its reason may be too long for the frame
    /// that carries it. A refusal changes nothing, and the exception is handed back.
    pub fn fail(&mut self, task: TaskId, exception: Exception) -> Result<(), Refused<Exception>>
        ensures asks { AsksToFit self.old (command.Fail task exception) (answered result (λ _. granted.Done) (λ e. e.refusal)) self.new }
        ensures handed_back { IfErr result (λ e. e.back ≡ exception) }
    {
        match self.speaker.command(Command::Fail(task, exception)) {
            Ok(_granted) => return Ok(()),
            Err(refused) => return Err(exception_back(refused)),
        }
    }
}

fn results_in(command: Command) -> Option<(Payload, Items<RefId>)>
    ensures { result ≡ results_of command }
{
    match command {
        Command::Answer(_, payload, refs) => Some((payload, refs)),
        _other => None,
    }
}

fn exception_in(command: Command) -> Option<Exception>
    ensures { result ≡ exception_of command }
{
    match command {
        Command::Fail(_, exception) => Some(exception),
        Command::Reject(_, exception) => Some(exception),
        _other => None,
    }
}

// What a refused `Answer` was given.
fn results_back(refused: Refused<Command>) -> Refused<(Payload, Items<RefId>)>
    requires { IsSome (results_of refused.back) }
    ensures refusal { result.refusal ≡ refused.refusal }
    ensures back { results_of refused.back ≡ Some result.back }
{
    let Refused { refusal, back } = refused;
    let Some(back) = results_in(back) else {
        unreachable!()
    };
    Refused { refusal, back }
}

// What a refused `Fail` or `Reject` was given.
pub(crate) fn exception_back(refused: Refused<Command>) -> Refused<Exception>
    requires { IsSome (exception_of refused.back) }
    ensures refusal { result.refusal ≡ refused.refusal }
    ensures back { exception_of refused.back ≡ Some result.back }
{
    let Refused { refusal, back } = refused;
    let Some(back) = exception_in(back) else {
        unreachable!()
    };
    Refused { refusal, back }
}
