ghost use Rattle.std.specs.Prelude.{◌≡◌, ◌+◌, ◌<◌, ◌≤◌, None, [], length, OnOk, IfErr};
ghost use Rattle.rpc_machine.specs.declared.fault.Fault.TheVariants as fault;
ghost use Rattle.rpc_machine.specs.Descriptors.{take_one, take_each, take_all, import_one};
ghost use Rattle.rpc_machine.specs.Faults.{descriptors_fault, each_fault};
ghost use Rattle.rpc_machine.specs.Progress.{with_state};
ghost use Rattle.core_store.specs.Holding.{state_of};
ghost use Rattle.core_step.specs.InProgress.{progress_of, IsReady};
ghost use Rattle.core_step_checks.specs.Parts.{fault_alone, fault_in_turn};
ghost use Rattle.core_step_messages.specs.Stopping.{Stops};

use core_step::Step;
use core_step_checks::{descriptors_in_turn, fault_of_descriptor};
use core_store_tables::receive;
use rpc_machine::{Fault, Level, SenderKind};
use rpc_msg::{Descriptor, ExportId};

// Receives an export of the peer once more.
fn take_import(step: &mut Step, id: ExportId, kind: SenderKind) -> Result<(), Fault>
    requires ready { IsReady step.old }
    requires slack { 0 < step.old.store.slack }
    ensures state { OnOk result (progress_of step.new ≡ with_state (progress_of step.old) (import_one (state_of step.old.store) kind id.0)) }
    ensures fault { IfErr result (λ f. f ≡ fault.WantOfRoom) }
    ensures left { OnOk result (step.old.store.slack ≤ step.new.store.slack + 1) }
    ensures taken { OnOk result (step.new.store.waits.taken ≡ step.old.store.waits.taken) }
    ensures ready { OnOk result (IsReady step.new) }
{
    match receive(&mut step.store, id, kind) {
        Ok(()) => Ok(()),
        Err(_) => Err(Fault::WantOfRoom),
    }
}

// Takes a descriptor, once those before it in its message were taken.
fn take_one(step: &mut Step, descriptor: Descriptor) -> Result<(), Fault>
    requires ready { IsReady step.old }
    requires slack { 0 < step.old.store.slack }
    ensures none { OnOk result (fault_alone (state_of step.old.store) descriptor ≡ None) }
    ensures fault { IfErr result (λ f. Stops (fault_alone (state_of step.old.store) descriptor) f) }
    ensures state { OnOk result (progress_of step.new ≡ with_state (progress_of step.old) (take_one (state_of step.old.store) descriptor)) }
    ensures left { OnOk result (step.old.store.slack ≤ step.new.store.slack + 1) }
    ensures taken { OnOk result (step.new.store.waits.taken ≡ step.old.store.waits.taken) }
    ensures ready { OnOk result (IsReady step.new) }
{
    // A copy: what is passed by value can't be used again, though its type is `Copy`.
    let taken = descriptor;
    fault_of_descriptor(&step.store, descriptor)?;
    match taken {
        Descriptor::SenderHosted(id) => take_import(step, id, SenderKind::Hosted),
        Descriptor::SenderPromise(id) => take_import(step, id, SenderKind::Promise),
        Descriptor::None => Ok(()),
        Descriptor::ReceiverHosted(_) => Ok(()),
        Descriptor::ReceiverAnswer(_, _) => Ok(()),
    }
}

// Takes descriptors one after the other. One of the slack is there for each.
fn take_each(step: &mut Step, descriptors: &[Descriptor]) -> Result<(), Fault>
    requires ready { IsReady step.old }
    requires slack { length descriptors.now ≤ step.old.store.slack }
    ensures none { OnOk result (fault_in_turn (state_of step.old.store) descriptors.now ≡ None) }
    ensures fault { IfErr result (λ f. Stops (fault_in_turn (state_of step.old.store) descriptors.now) f) }
    ensures state { OnOk result (progress_of step.new ≡ with_state (progress_of step.old) (take_each (state_of step.old.store) descriptors.now)) }
    ensures taken { OnOk result (step.new.store.waits.taken ≡ step.old.store.waits.taken) }
    ensures ready { OnOk result (IsReady step.new) }
{
    for descriptor in descriptors {
        take_one(step, *descriptor)?;
    }
    Ok(())
}

fn take_all(step: &mut Step, descriptors: &[Descriptor]) -> Result<(), Fault>
    requires ready { IsReady step.old }
    ensures none { OnOk result (each_fault (state_of step.old.store) [] descriptors.now ≡ None) }
    ensures fault { IfErr result (λ f. Stops (each_fault (state_of step.old.store) [] descriptors.now) f) }
    ensures state { OnOk result (progress_of step.new ≡ with_state (progress_of step.old) (take_each (state_of step.old.store) descriptors.now)) }
    ensures taken { OnOk result (step.new.store.waits.taken ≡ step.old.store.waits.taken) }
    ensures ready { OnOk result (IsReady step.new) }
{
    descriptors_in_turn();
    let Ok(()) = core_step::reserve(step, descriptors.len()) else {
        return Err(Fault::WantOfRoom);
    };
    take_each(step, descriptors)
}

/// Takes the descriptors of a message: each sender descriptor adds one to its import. A vat of level 0 takes none.
/// Makes the room for them. `Err` with the first fault of the descriptors, or for lack of room or of memory; the step
/// is only to be dropped then.
#[inline(always)]
pub fn take_descriptors(step: &mut Step, descriptors: &[Descriptor]) -> Result<(), Fault>
    requires ready { IsReady step.old }
    ensures none { OnOk result (descriptors_fault (state_of step.old.store) descriptors.now ≡ None) }
    ensures fault { IfErr result (λ f. Stops (descriptors_fault (state_of step.old.store) descriptors.now) f) }
    ensures state { OnOk result (progress_of step.new ≡ with_state (progress_of step.old) (take_all (state_of step.old.store) descriptors.now)) }
    ensures taken { OnOk result (step.new.store.waits.taken ≡ step.old.store.waits.taken) }
    ensures ready { OnOk result (IsReady step.new) }
{
    if descriptors.is_empty() {
        return Ok(());
    }
    match step.store.level {
        Level::Zero => Ok(()),
        Level::One => take_all(step, descriptors),
    }
}
