ghost use Rattle.std.specs.Prelude.{◌≡◌, None, false, [], OnOk, IfErr};
ghost use Rattle.rpc_machine.specs.Faults.{fault_of};
ghost use Rattle.rpc_machine.specs.Progress.{quiet};
ghost use Rattle.rpc_machine.specs.Steps.{Receives};
ghost use Rattle.core_store.specs.Holding.{state_of};
ghost use Rattle.core_step.specs.InProgress.{progress_of, IsIdle, IsReady};
ghost use Rattle.core_step_sweeps.specs.Over.{AreOver};
ghost use Rattle.core_step_messages.specs.Stopping.{StopsBy};
ghost use Rattle.core_steps.specs.Aborts.{is_abort};
ghost use Rattle.core_steps.specs.Whole.{IsResting, WasTaken};

use crate::fall::{fall_as, fall_silently_as, named_of};
use crate::machine::Machine;
use crate::settlement::settle_step;
use core_step::{Step, begin};
use core_step_messages::take_message;
use core_step_sweeps::{Thought, end_settled};
use rpc_machine::{Effects, Fault};
use rpc_msg::{Items, Message, PlainMessage};
use std::alloc::Global;

/// Takes a message of the other vat, and says what follows. A vat that is down does nothing. A message that is a fault
/// takes the vat down with the fault's number, and so does lack of room or of memory, which an Abort never needs.
pub fn receive(machine: &mut Machine, message: Message) -> Effects
    requires resting { IsResting machine.old }
    ensures receives { Receives (state_of machine.old.step.store) message result (state_of machine.new.step.store) }
    ensures resting { IsResting machine.new }
{
    let None = machine.step.store.down else {
        return nothing(machine.alloc);
    };
    let named = named_of(&machine.step.store);
    if is_abort(&message) {
        return fall_silently_as(machine, named, Fault::PeerAbort.code());
    }
    let step = &mut machine.step;
    let received = receive_whole(step, &mut machine.thought, machine.alloc, message);
    let Err(fault) = received else {
        return end_settled(&mut machine.step, machine.thought.over.as_slice());
    };
    fall_as(machine, named, fault.code())
}

fn nothing(alloc: Global) -> Effects
    ensures { result ≡ quiet }
{
    Effects {
        sends: Items::new(alloc),
        deliveries: Items::new(alloc),
        answers: Items::new(alloc),
        down: None,
    }
}

fn is_abort(message: &Message) -> bool
    ensures { result ≡ is_abort message.now }
{
    let Message::Plain(PlainMessage::Abort(_)) = message else {
        return false;
    };
    true
}

// The step of any message but an Abort. After an `Err` the vat goes down.
fn receive_whole(
    step: &mut Step,
    thought: &mut Thought,
    alloc: Global,
    message: Message,
) -> Result<(), Fault>
    requires idle { IsIdle step.old }
    requires none_taken { step.old.store.waits.taken ≡ [] }
    requires no_abort { is_abort message ≡ false }
    ensures none { OnOk result (fault_of (state_of step.old.store) message ≡ None) }
    ensures done { OnOk result (WasTaken (state_of step.old.store) message (progress_of step.new)) }
    ensures fault { IfErr result (λ f. StopsBy (state_of step.old.store) message f) }
    ensures over { OnOk result (AreOver (state_of step.new.store) thought.new.over.items) }
    ensures settled { OnOk result (step.new.arisen.0 ≡ []) }
    ensures taken { OnOk result (step.new.store.waits.taken ≡ []) }
    ensures ready { OnOk result (IsReady step.new) }
{
    let Ok(()) = begin(step, 1) else {
        return Err(Fault::WantOfRoom);
    };
    take_message(step, alloc, message)?;
    let Ok(()) = settle_step(step, alloc, thought) else {
        return Err(Fault::WantOfRoom);
    };
    Ok(())
}
