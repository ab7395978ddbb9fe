ghost use Rattle.std.specs.Prelude.{◌≡◌, None, [], OnOk, IfErr};
ghost use Rattle.rpc_machine.specs.declared.fault.Fault.TheVariants as fault;
ghost use Rattle.rpc_msg.specs.declared.message.Message.TheVariants as message;
ghost use Rattle.rpc_machine.specs.Faults.{plain_fault, fault_of};
ghost use Rattle.rpc_machine.specs.Messages.{Takes, TakesPlain};
ghost use Rattle.rpc_machine.specs.Progress.{echo};
ghost use Rattle.rpc_machine.specs.Steps.{NeedsRoom};
ghost use Rattle.core_store.specs.Holding.{state_of};
ghost use Rattle.core_step.specs.InProgress.{progress_of, IsReady};
ghost use Rattle.core_step_messages.specs.Stopping.{StopsIf, StopsBy};

use crate::bootstraps::take_bootstrap;
use crate::calls::take_call;
use crate::disembargoes::take_disembargo;
use crate::echoes::take_unimplemented;
use crate::finishes::take_finish;
use crate::foresight::foresee;
use crate::releases::take_release;
use crate::resolves::take_resolve;
use crate::returns::take_return;
use core_step::{Step, echo, reserve};
use core_step_checks::is_foreign;
use rpc_machine::Fault;
use rpc_msg::{Message, PlainMessage};
use std::alloc::Global;

// Sends a message back as not understood.
#[inline(always)]
fn send_back(step: &mut Step, message: PlainMessage) -> Result<(), Fault>
    requires { IsReady step.old }
    ensures said { OnOk result (progress_of step.new ≡ echo (progress_of step.old) message) }
    ensures fault { IfErr result (λ f. f ≡ fault.WantOfRoom) }
    ensures taken { OnOk result (step.new.store.waits.taken ≡ step.old.store.waits.taken) }
    ensures ready { OnOk result (IsReady step.new) }
{
    let Ok(()) = reserve(step, 1) else {
        return Err(Fault::WantOfRoom);
    };
    echo(step, message);
    Ok(())
}

// Of a message that is looked at.
fn take_plain(step: &mut Step, alloc: Global, message: PlainMessage) -> Result<(), Fault>
    requires ready { IsReady step.old }
    requires none_taken { step.old.store.waits.taken ≡ [] }
    ensures none { OnOk result (plain_fault (state_of step.old.store) message ≡ None) }
    ensures fault { IfErr result (λ f. StopsIf (plain_fault (state_of step.old.store) message) (NeedsRoom message) f) }
    ensures takes { OnOk result (TakesPlain (progress_of step.old) message (progress_of step.new)) }
    ensures taken { OnOk result (step.new.store.waits.taken ≡ []) }
    ensures ready { OnOk result (IsReady step.new) }
{
    match message {
        PlainMessage::Abort(_) => Err(Fault::PeerAbort),
        PlainMessage::Bootstrap(question) => take_bootstrap(step, alloc, question),
        PlainMessage::Call(call) => take_call(step, alloc, call),
        PlainMessage::Return(said) => take_return(step, alloc, said),
        PlainMessage::Finish(finish) => take_finish(step, alloc, finish),
        PlainMessage::Resolve(resolve) => take_resolve(step, resolve),
        PlainMessage::Release(release) => take_release(step, release),
        PlainMessage::Disembargo(disembargo) => take_disembargo(step, alloc, disembargo),
        PlainMessage::Other(number) => send_back(step, PlainMessage::Other(number)),
    }
}

// A message that was not understood before it was looked at, or one that is looked at.
fn take_unless(step: &mut Step, alloc: Global, plain: PlainMessage) -> Result<(), Fault>
    requires ready { IsReady step.old }
    requires none_taken { step.old.store.waits.taken ≡ [] }
    ensures none { OnOk result (fault_of (state_of step.old.store) (message.Plain plain) ≡ None) }
    ensures fault { IfErr result (λ f. StopsBy (state_of step.old.store) (message.Plain plain) f) }
    ensures takes { OnOk result (Takes (progress_of step.old) (message.Plain plain) (progress_of step.new)) }
    ensures taken { OnOk result (step.new.store.waits.taken ≡ []) }
    ensures ready { OnOk result (IsReady step.new) }
{
    if is_foreign(step.store.level, &plain) {
        send_back(step, plain)
    } else {
        take_plain(step, alloc, plain)
    }
}

/// Does what a received message does first, before outcomes that arose are settled. Makes the room for it. `Err` with
/// the fault that the message is, or for lack of room or of memory, which an Abort never needs; the step is only to be
/// dropped then, and the vat goes down. All descriptors are checked before a full table of imports refuses one of them.
pub fn take_message(step: &mut Step, alloc: Global, message: Message) -> Result<(), Fault>
    requires ready { IsReady step.old }
    requires none_taken { step.old.store.waits.taken ≡ [] }
    ensures none { OnOk result (fault_of (state_of step.old.store) message ≡ None) }
    ensures fault { IfErr result (λ f. StopsBy (state_of step.old.store) message f) }
    ensures takes { OnOk result (Takes (progress_of step.old) message (progress_of step.new)) }
    ensures taken { OnOk result (step.new.store.waits.taken ≡ []) }
    ensures ready { OnOk result (IsReady step.new) }
{
    foresee(&step.store, alloc, &message)?;
    match message {
        Message::Plain(plain) => take_unless(step, alloc, plain),
        Message::Unimplemented(plain) => take_unimplemented(step, alloc, plain),
    }
}
