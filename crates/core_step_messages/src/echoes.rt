ghost use Rattle.std.specs.Prelude.{◌≡◌, ◌∷◌, None, [], true, OnOk, IfErr};
ghost use Rattle.rpc_msg.specs.Messages.{given};
ghost use Rattle.rpc_machine.specs.Faults.{unimplemented_fault, echoed_resolve_fault, given_by};
ghost use Rattle.rpc_machine.specs.Flags.{obey};
ghost use Rattle.rpc_machine.specs.Messages.{TakesUnimplemented};
ghost use Rattle.rpc_machine.specs.Progress.{with_state};
ghost use Rattle.core_store.specs.Holding.{state_of};
ghost use Rattle.core_step.specs.InProgress.{progress_of, IsReady};
ghost use Rattle.core_step_messages.specs.Stopping.{Stops};

use crate::flags::obey_flag;
use crate::returns::take_echoed;
use core_step::Step;
use rpc_machine::Fault;
use rpc_msg::{Descriptor, ExportId, PlainMessage, ResolvedTo};
use std::alloc::Global;

// One is taken off the count of the export that a Resolve gave.
fn take_back(step: &mut Step, id: ExportId) -> Result<(), Fault>
    requires { IsReady step.old }
    ensures none { OnOk result (echoed_resolve_fault (state_of step.old.store) (id.0 ∷ []) ≡ None) }
    ensures fault { IfErr result (λ f. Stops (echoed_resolve_fault (state_of step.old.store) (id.0 ∷ [])) f) }
    ensures state { OnOk result (progress_of step.new ≡ with_state (progress_of step.old) (obey (state_of step.old.store) true (id.0 ∷ []))) }
    ensures taken { OnOk result (step.new.store.waits.taken ≡ step.old.store.waits.taken) }
    ensures ready { OnOk result (IsReady step.new) }
{
    let Some(_) = step.store.exports.get(id) else {
        return Err(Fault::UnknownExport);
    };
    obey_flag(step, std::slice::from_ref(&id))
}

fn take_back_cap(step: &mut Step, said: Descriptor) -> Result<(), Fault>
    requires { IsReady step.old }
    ensures none { OnOk result (echoed_resolve_fault (state_of step.old.store) (given (said ∷ [])) ≡ None) }
    ensures fault { IfErr result (λ f. Stops (echoed_resolve_fault (state_of step.old.store) (given (said ∷ []))) f) }
    ensures state { OnOk result (progress_of step.new ≡ with_state (progress_of step.old) (obey (state_of step.old.store) true (given (said ∷ [])))) }
    ensures taken { OnOk result (step.new.store.waits.taken ≡ step.old.store.waits.taken) }
    ensures ready { OnOk result (IsReady step.new) }
{
    match said {
        Descriptor::SenderHosted(id) => take_back(step, id),
        Descriptor::SenderPromise(id) => take_back(step, id),
        Descriptor::None => Ok(()),
        Descriptor::ReceiverHosted(_) => Ok(()),
        Descriptor::ReceiverAnswer(_, _) => Ok(()),
    }
}

fn take_back_resolved(step: &mut Step, to: &ResolvedTo) -> Result<(), Fault>
    requires { IsReady step.old }
    ensures none { OnOk result (echoed_resolve_fault (state_of step.old.store) (given_by to.now) ≡ None) }
    ensures fault { IfErr result (λ f. Stops (echoed_resolve_fault (state_of step.old.store) (given_by to.now)) f) }
    ensures state { OnOk result (progress_of step.new ≡ with_state (progress_of step.old) (obey (state_of step.old.store) true (given_by to.now))) }
    ensures taken { OnOk result (step.new.store.waits.taken ≡ step.old.store.waits.taken) }
    ensures ready { OnOk result (IsReady step.new) }
{
    match to {
        ResolvedTo::Cap(said) => take_back_cap(step, *said),
        ResolvedTo::Exception(_) => Ok(()),
    }
}

/// Takes a message that came back Unimplemented: a question has failed, of a Resolve what it gave is taken back, and of
/// a Release nothing is needed. Makes the room for it. `Err` with the fault that it is, or for lack of room or of
/// memory; the step is only to be dropped then.
pub fn take_unimplemented(
    step: &mut Step,
    alloc: Global,
    message: PlainMessage,
) -> Result<(), Fault>
    requires ready { IsReady step.old }
    ensures none { OnOk result (unimplemented_fault (state_of step.old.store) message ≡ None) }
    ensures fault { IfErr result (λ f. Stops (unimplemented_fault (state_of step.old.store) message) f) }
    ensures takes { OnOk result (TakesUnimplemented (progress_of step.old) message (progress_of step.new)) }
    ensures taken { OnOk result (step.new.store.waits.taken ≡ step.old.store.waits.taken) }
    ensures ready { OnOk result (IsReady step.new) }
{
    match message {
        PlainMessage::Abort(_) => Err(Fault::UnimplementedAnswer),
        PlainMessage::Bootstrap(question) => take_echoed(step, alloc, question),
        PlainMessage::Call(call) => take_echoed(step, alloc, call.question),
        PlainMessage::Return(_) => Err(Fault::UnimplementedAnswer),
        PlainMessage::Finish(_) => Err(Fault::UnimplementedAnswer),
        PlainMessage::Resolve(resolve) => take_back_resolved(step, &resolve.to),
        PlainMessage::Release(_) => Ok(()),
        PlainMessage::Disembargo(_) => Err(Fault::UnimplementedAnswer),
        PlainMessage::Other(_) => Err(Fault::UnimplementedAnswer),
    }
}
