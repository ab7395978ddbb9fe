ghost use Rattle.std.specs.Prelude.{◌≡◌, None, [], OnOk, IfErr};
ghost use Rattle.std.specs.FinMap as map;
ghost use Rattle.rpc_msg.specs.declared.message.PlainMessage.TheVariants as plain;
ghost use Rattle.rpc_machine.specs.declared.fault.Fault.TheVariants as fault;
ghost use Rattle.rpc_machine.specs.Faults.{plain_fault};
ghost use Rattle.rpc_machine.specs.Messages.{TakesPlain};
ghost use Rattle.core_store.specs.Holding.{state_of};
ghost use Rattle.core_step.specs.InProgress.{progress_of, IsReady};
ghost use Rattle.core_step_messages.specs.Parts.{OpensFor};
ghost use Rattle.core_step_messages.specs.Stopping.{Stops};

use crate::answers::open_with;
use crate::descriptors::take_descriptors;
use crate::nodes::{read_all, taken_of};
use core_step::Step;
use core_step_checks::{fault_before_call, fault_behind_call, faults_in_parts, target_node};
use core_step_routes::route;
use rpc_machine::{Fault, Node, Request, WaitingCall};
use rpc_msg::{Call, ExportId, Items, QuestionId};
use std::alloc::Global;

// The answer opens, and the call is routed.
#[inline(always)]
fn open_for(
    step: &mut Step,
    alloc: Global,
    question: QuestionId,
    taken: Items<ExportId>,
    request: Request,
    target: Node,
) -> Result<(), Fault>
    requires ready { IsReady step.old }
    requires new { map.get (state_of step.old.store).answers question.0 ≡ None }
    ensures opens { OnOk result (OpensFor (progress_of step.old) question.0 taken request target (progress_of step.new)) }
    ensures fault { IfErr result (λ f. f ≡ fault.WantOfRoom) }
    ensures taken { OnOk result (step.new.store.waits.taken ≡ step.old.store.waits.taken) }
    ensures ready { OnOk result (IsReady step.new) }
{
    let Ok(outcome) = open_with(step, question, taken) else {
        return Err(Fault::WantOfRoom);
    };
    match route(step, alloc, WaitingCall { request, outcome }, &target) {
        Ok(()) => Ok(()),
        Err(_) => Err(Fault::WantOfRoom),
    }
}

/// Takes a Call: its descriptors are taken, its answer opens with a new outcome, and it is routed to its target. Makes
/// the room for it. `Err` with the fault that it is, or for lack of room or of memory; the step is only to be dropped
/// then.
pub fn take_call(step: &mut Step, alloc: Global, call: Call) -> Result<(), Fault>
    requires ready { IsReady step.old }
    requires none_taken { step.old.store.waits.taken ≡ [] }
    ensures none { OnOk result (plain_fault (state_of step.old.store) (plain.Call call) ≡ None) }
    ensures fault { IfErr result (λ f. Stops (plain_fault (state_of step.old.store) (plain.Call call)) f) }
    ensures takes { OnOk result (TakesPlain (progress_of step.old) (plain.Call call) (progress_of step.new)) }
    ensures taken { OnOk result (step.new.store.waits.taken ≡ []) }
    ensures ready { OnOk result (IsReady step.new) }
{
    faults_in_parts();
    fault_before_call(&step.store, &call)?;
    let target = target_node(&step.store, &call.target);
    let Ok(taken) = taken_of(&step.store, alloc, &call.descriptors) else {
        return Err(Fault::WantOfRoom);
    };
    let Ok(caps) = read_all(&step.store, alloc, &call.descriptors) else {
        return Err(Fault::WantOfRoom);
    };
    take_descriptors(step, &call.descriptors)?;
    match fault_behind_call(&step.store, &call.target) {
        Ok(()) => {
            let Call {
                question,
                target: _,
                interface,
                method,
                payload,
                descriptors: _,
                stamp,
            } = call;
            let request = Request {
                stamp,
                interface,
                method,
                payload,
                caps,
            };
            open_for(step, alloc, question, taken, request, target)
        }
        Err(fault) => Err(fault),
    }
}
