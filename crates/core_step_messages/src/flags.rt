ghost use Rattle.std.specs.Prelude.{◌≡◌, None, Some, true, OnOk, IfErr};
ghost use Rattle.rpc_machine.specs.Numbers.{fault_number};
ghost use Rattle.rpc_machine.specs.Faults.{flag_fault};
ghost use Rattle.rpc_machine.specs.Flags.{obey};
ghost use Rattle.rpc_machine.specs.Progress.{numbers, with_state};
ghost use Rattle.core_store.specs.Holding.{state_of};
ghost use Rattle.core_step.specs.InProgress.{progress_of, IsReady};
ghost use Rattle.core_step_checks.specs.Parts.{flag_in_turn};

use core_step::Step;
use core_step_checks::{fault_of_one, flags_in_turn};
use core_store_tables::lower;
use rpc_machine::Fault;
use rpc_msg::ExportId;

// Gives back one of each, one after the other.
fn give_each(step: &mut Step, ids: &[ExportId]) -> Result<(), Fault>
    requires ready { IsReady step.old }
    ensures none { OnOk result (flag_in_turn (state_of step.old.store).exports (numbers ids.now) ≡ None) }
    ensures fault { IfErr result (λ f. flag_in_turn (state_of step.old.store).exports (numbers ids.now) ≡ Some (fault_number f)) }
    ensures state { OnOk result (progress_of step.new ≡ with_state (progress_of step.old) (obey (state_of step.old.store) true (numbers ids.now))) }
    ensures left { OnOk result (step.new.store.slack ≡ step.old.store.slack) }
    ensures waits { OnOk result (step.new.store.waits ≡ step.old.store.waits) }
    ensures ready { OnOk result (IsReady step.new) }
{
    for id in ids {
        fault_of_one(&step.store, *id)?;
        lower(&mut step.store, *id, 1);
    }
    Ok(())
}

/// Obeys a true release flag: one is taken off the count of each of these exports. Takes no memory. `Err` if that takes
/// off more than there is; the step is only to be dropped then.
pub fn obey_flag(step: &mut Step, ids: &[ExportId]) -> Result<(), Fault>
    requires ready { IsReady step.old }
    ensures none { OnOk result (flag_fault (state_of step.old.store) true (numbers ids.now) ≡ None) }
    ensures fault { IfErr result (λ f. flag_fault (state_of step.old.store) true (numbers ids.now) ≡ Some (fault_number f)) }
    ensures state { OnOk result (progress_of step.new ≡ with_state (progress_of step.old) (obey (state_of step.old.store) true (numbers ids.now))) }
    ensures left { OnOk result (step.new.store.slack ≡ step.old.store.slack) }
    ensures waits { OnOk result (step.new.store.waits ≡ step.old.store.waits) }
    ensures ready { OnOk result (IsReady step.new) }
{
    flags_in_turn();
    give_each(step, ids)
}
