ghost use Rattle.std.specs.Prelude.{◌≡◌, None, Some, OnOk, IfErr};
ghost use Rattle.std.specs.FinMap as map;
ghost use Rattle.rpc_msg.specs.declared.message.PlainMessage.TheVariants as plain;
ghost use Rattle.rpc_machine.specs.Faults.{flag_fault, plain_fault};
ghost use Rattle.rpc_machine.specs.Flags.{obey};
ghost use Rattle.rpc_machine.specs.Messages.{TakesPlain};
ghost use Rattle.rpc_machine.specs.Progress.{with_state};
ghost use Rattle.core_store.specs.Holding.{state_of};
ghost use Rattle.core_step.specs.InProgress.{progress_of, IsReady};
ghost use Rattle.core_step_checks.specs.Parts.{given_in};
ghost use Rattle.core_step_messages.specs.Stopping.{Stops};

use crate::flags::obey_flag;
use core_step::{Step, reserve};
use core_step_checks::fault_before_finish;
use core_store_tables::finish_answer;
use rpc_machine::Fault;
use rpc_msg::{Finish, QuestionId};
use std::alloc::Global;

// Obeys the flag of a Finish, by what the Return of the answer gave.
fn obey_for_answer(step: &mut Step, alloc: Global, id: QuestionId, flag: bool) -> Result<(), Fault>
    requires ready { IsReady step.old }
    ensures none { OnOk result (flag_fault (state_of step.old.store) flag (given_in (map.get (state_of step.old.store).answers id.0)) ≡ None) }
    ensures fault { IfErr result (λ f. Stops (flag_fault (state_of step.old.store) flag (given_in (map.get (state_of step.old.store).answers id.0))) f) }
    ensures state { OnOk result (progress_of step.new ≡ with_state (progress_of step.old) (obey (state_of step.old.store) flag (given_in (map.get (state_of step.old.store).answers id.0)))) }
    ensures taken { OnOk result (step.new.store.waits.taken ≡ step.old.store.waits.taken) }
    ensures ready { OnOk result (IsReady step.new) }
{
    if !flag {
        return Ok(());
    }
    let Some(answer) = step.store.answers.get(id.0) else {
        return Ok(());
    };
    let Some(ids) = &answer.returned else {
        return Ok(());
    };
    let Ok(ids) = ids.copy(alloc) else {
        return Err(Fault::WantOfRoom);
    };
    obey_flag(step, &ids)
}

/// Takes a Finish: its flag is obeyed, and its answer goes if the Return was sent. `Err` with the fault that it is, or for
/// running out of memory; the step is only to be dropped then.
pub fn take_finish(step: &mut Step, alloc: Global, finish: Finish) -> Result<(), Fault>
    requires ready { IsReady step.old }
    ensures none { OnOk result (plain_fault (state_of step.old.store) (plain.Finish finish) ≡ None) }
    ensures fault { IfErr result (λ f. Stops (plain_fault (state_of step.old.store) (plain.Finish finish)) f) }
    ensures takes { OnOk result (TakesPlain (progress_of step.old) (plain.Finish finish) (progress_of step.new)) }
    ensures taken { OnOk result (step.new.store.waits.taken ≡ step.old.store.waits.taken) }
    ensures ready { OnOk result (IsReady step.new) }
{
    fault_before_finish(&step.store, finish.question)?;
    obey_for_answer(step, alloc, finish.question, finish.release_result_caps)?;
    let Ok(()) = reserve(step, 1) else {
        return Err(Fault::WantOfRoom);
    };
    finish_answer(&mut step.store, finish.question);
    Ok(())
}
