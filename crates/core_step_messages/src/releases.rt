ghost use Rattle.std.specs.Prelude.{◌≡◌, None, Some, OnOk, IfErr};
ghost use Rattle.rpc_msg.specs.declared.message.PlainMessage.TheVariants as plain;
ghost use Rattle.rpc_machine.specs.Numbers.{fault_number};
ghost use Rattle.rpc_machine.specs.Faults.{plain_fault};
ghost use Rattle.rpc_machine.specs.Messages.{TakesPlain};
ghost use Rattle.core_store.specs.Holding.{state_of};
ghost use Rattle.core_step.specs.InProgress.{progress_of, IsReady};

use core_step::Step;
use core_step_checks::fault_of_release;
use core_store_tables::lower;
use rpc_machine::Fault;
use rpc_msg::Release;

/// Takes a Release: the count of its export falls, and at zero it goes. Takes no memory. `Err` with the fault that it is;
/// nothing is changed then.
pub fn take_release(step: &mut Step, release: Release) -> Result<(), Fault>
    requires ready { IsReady step.old }
    ensures none { OnOk result (plain_fault (state_of step.old.store) (plain.Release release) ≡ None) }
    ensures fault { IfErr result (λ f. plain_fault (state_of step.old.store) (plain.Release release) ≡ Some (fault_number f)) }
    ensures takes { OnOk result (TakesPlain (progress_of step.old) (plain.Release release) (progress_of step.new)) }
    ensures taken { OnOk result (step.new.store.waits.taken ≡ step.old.store.waits.taken) }
    ensures ready { OnOk result (IsReady step.new) }
{
    fault_of_release(&step.store, release)?;
    lower(&mut step.store, release.export, release.count);
    Ok(())
}
