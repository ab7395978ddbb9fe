ghost use Rattle.std.specs.Prelude.{◌≡◌, IfErr};
ghost use Rattle.rpc_machine.specs.declared.command.Command.TheVariants as command;
ghost use Rattle.rpc_machine.specs.declared.command.Granted.TheVariants as granted;
ghost use Rattle.core_store.specs.Holding.{state_of};
ghost use Rattle.core_step_commands.specs.Straight.{IsStraight};
ghost use Rattle.core_steps.specs.Whole.{IsResting, Tries};

use crate::machine::Machine;
use crate::quiet_steps::begin_quietly;
use core_step_commands::StraightCall;
use core_step_sweeps::sweep;
use rpc_machine::{CallCommand, Effects};
use rpc_msg::CallId;

/// Makes a call that goes to an import at once, as `call` does.
pub fn call_straight(
    machine: &mut Machine,
    call: CallCommand,
    straight: StraightCall,
) -> Result<(CallId, Effects), CallCommand>
    requires resting { IsResting machine.old }
    requires straight { IsStraight (state_of machine.old.step.store) call straight }
    ensures obeys { Tries machine.old (command.Call call) (λ x. granted.Call x.0) (λ x. x.1) result machine.new }
    ensures handed_back { IfErr result (λ c. c ≡ call) }
    ensures resting { IsResting machine.new }
{
    let Ok(()) = begin_quietly(&mut machine.step, 2) else {
        return Err(call);
    };
    let id = core_step_commands::call_straight(&mut machine.step, machine.alloc, call, straight);
    let Ok(effects) = sweep(&mut machine.step, &mut machine.thought) else {
        unreachable!()
    };
    Ok((id, effects))
}
