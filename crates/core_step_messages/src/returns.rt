ghost use Rattle.std.specs.Prelude.{◌≡◌, None, OnOk, IfOk, IfErr};
ghost use Rattle.std.specs.FinMap as map;
ghost use Rattle.rpc_msg.specs.Messages.{descriptors_of_body};
ghost use Rattle.rpc_msg.specs.declared.message.ReturnBody.TheVariants as body;
ghost use Rattle.rpc_machine.specs.declared.fault.Fault.TheVariants as fault;
ghost use Rattle.rpc_msg.specs.declared.message.PlainMessage.TheVariants as plain;
ghost use Rattle.rpc_machine.specs.Descriptors.{take_all};
ghost use Rattle.rpc_machine.specs.Faults.{descriptors_fault, flag_fault, plain_fault, echoed_fault};
ghost use Rattle.rpc_machine.specs.Flags.{obey};
ghost use Rattle.rpc_machine.specs.Messages.{results_of, TakesPlain, TakesEchoed};
ghost use Rattle.rpc_machine.specs.Progress.{with_state};
ghost use Rattle.core_store.specs.Holding.{state_of};
ghost use Rattle.core_step.specs.InProgress.{progress_of, IsReady};
ghost use Rattle.core_step_checks.specs.Parts.{given_with};
ghost use Rattle.core_step_messages.specs.Stopping.{Stops};

use crate::descriptors::take_descriptors;
use crate::flags::obey_flag;
use crate::nodes::read_beside;
use crate::questions::come_back;
use core_step::Step;
use core_step_checks::{fault_before_echoed, fault_before_return};
use core_store_tables::waive;
use rpc_machine::{Fault, Returned};
use rpc_msg::{
    Descriptor, Exception, ExceptionKind, Items, Memory, Payload, QuestionId, Return, ReturnBody,
    Text,
};
use std::alloc::Global;

// Obeys the flag of a Return, by what the Call of the question gave.
fn obey_for_question(
    step: &mut Step,
    alloc: Global,
    id: QuestionId,
    flag: bool,
) -> Result<(), Fault>
    requires ready { IsReady step.old }
    ensures none { OnOk result (flag_fault (state_of step.old.store) flag (given_with (map.get (state_of step.old.store).questions id.0)) ≡ None) }
    ensures fault { IfErr result (λ f. Stops (flag_fault (state_of step.old.store) flag (given_with (map.get (state_of step.old.store).questions id.0))) f) }
    ensures state { OnOk result (progress_of step.new ≡ with_state (progress_of step.old) (obey (state_of step.old.store) flag (given_with (map.get (state_of step.old.store).questions id.0)))) }
    ensures taken { OnOk result (step.new.store.waits.taken ≡ step.old.store.waits.taken) }
    ensures ready { OnOk result (IsReady step.new) }
{
    if !flag {
        return Ok(());
    }
    let Some(question) = step.store.questions.get(id) else {
        return Ok(());
    };
    let Ok(ids) = question.given.copy(alloc) else {
        return Err(Fault::WantOfRoom);
    };
    obey_flag(step, &ids)
}

fn exception_of(alloc: Global, kind: ExceptionKind, text: &str) -> Result<Exception, Fault>
    ensures said { IfOk result (λ made. made ≡ record { kind = kind; reason = text.now }) }
    ensures fault { IfErr result (λ f. f ≡ fault.WantOfRoom) }
{
    let Ok(reason) = Text::new(alloc, text) else {
        return Err(Fault::WantOfRoom);
    };
    Ok(Exception { kind, reason })
}

// The results of a Return, with the nodes of its descriptors, which are taken.
fn take_results(
    step: &mut Step,
    alloc: Global,
    payload: Payload,
    descriptors: &Items<Descriptor>,
) -> Result<Returned, Fault>
    requires { IsReady step.old }
    ensures said { IfOk result (λ said. said ≡ results_of (state_of step.old.store) (body.Results payload descriptors.now)) }
    ensures none { OnOk result (descriptors_fault (state_of step.old.store) descriptors.now ≡ None) }
    ensures fault { IfErr result (λ f. Stops (descriptors_fault (state_of step.old.store) descriptors.now) f) }
    ensures state { OnOk result (progress_of step.new ≡ with_state (progress_of step.old) (take_all (state_of step.old.store) descriptors.now)) }
    ensures taken { OnOk result (step.new.store.waits.taken ≡ step.old.store.waits.taken) }
    ensures ready { OnOk result (IsReady step.new) }
{
    let Ok(caps) = read_beside(&step.store, alloc, descriptors) else {
        return Err(Fault::WantOfRoom);
    };
    take_descriptors(step, descriptors)?;
    Ok(Returned::Results(payload, caps))
}

// What a Return says, with the nodes of its descriptors, which are taken.
fn take_body(step: &mut Step, alloc: Global, body: ReturnBody) -> Result<Returned, Fault>
    requires { IsReady step.old }
    ensures said { IfOk result (λ said. said ≡ results_of (state_of step.old.store) body) }
    ensures none { OnOk result (descriptors_fault (state_of step.old.store) (descriptors_of_body body) ≡ None) }
    ensures fault { IfErr result (λ f. Stops (descriptors_fault (state_of step.old.store) (descriptors_of_body body)) f) }
    ensures state { OnOk result (progress_of step.new ≡ with_state (progress_of step.old) (take_all (state_of step.old.store) (descriptors_of_body body))) }
    ensures taken { OnOk result (step.new.store.waits.taken ≡ step.old.store.waits.taken) }
    ensures ready { OnOk result (IsReady step.new) }
{
    match body {
        ReturnBody::Results(payload, descriptors) => take_results(
            step,
            alloc,
            payload,
            &descriptors,
        ),
        ReturnBody::Exception(exception) => Ok(Returned::Exception(exception)),
        ReturnBody::Canceled => {
            let exception = exception_of(alloc, ExceptionKind::Failed, "call canceled")?;
            Ok(Returned::Exception(exception))
        }
    }
}

/// Takes a Return: its descriptors are taken, its flag is obeyed, and it is told for what its question was asked. Makes
/// the room for it. `Err` with the fault that it is, or for lack of room or of memory; the step is only to be dropped
/// then.
pub fn take_return(step: &mut Step, alloc: Global, said: Return) -> Result<(), Fault>
    requires ready { IsReady step.old }
    ensures none { OnOk result (plain_fault (state_of step.old.store) (plain.Return said) ≡ None) }
    ensures fault { IfErr result (λ f. Stops (plain_fault (state_of step.old.store) (plain.Return said)) f) }
    ensures takes { OnOk result (TakesPlain (progress_of step.old) (plain.Return said) (progress_of step.new)) }
    ensures taken { OnOk result (step.new.store.waits.taken ≡ step.old.store.waits.taken) }
    ensures ready { OnOk result (IsReady step.new) }
{
    fault_before_return(&step.store, &said)?;
    let Return {
        answer,
        release_param_caps,
        body,
    } = said;
    let returned = take_body(step, alloc, body)?;
    match obey_for_question(step, alloc, answer, release_param_caps) {
        Ok(()) => come_back(step, alloc, answer, returned),
        Err(fault) => Err(fault),
    }
}

/// Takes a question that came back Unimplemented: as the Return of an exception with a true flag, but no Finish is sent
/// for it. Makes the room for it. `Err` with the fault that it is, or for lack of room or of memory; the step is only
/// to be dropped then.
pub fn take_echoed(step: &mut Step, alloc: Global, id: QuestionId) -> Result<(), Fault>
    requires ready { IsReady step.old }
    ensures none { OnOk result (echoed_fault (state_of step.old.store) (map.get (state_of step.old.store).questions id.0) ≡ None) }
    ensures fault { IfErr result (λ f. Stops (echoed_fault (state_of step.old.store) (map.get (state_of step.old.store).questions id.0)) f) }
    ensures takes { OnOk result (TakesEchoed (progress_of step.old) id.0 (map.get (state_of step.old.store).questions id.0) (progress_of step.new)) }
    ensures taken { OnOk result (step.new.store.waits.taken ≡ step.old.store.waits.taken) }
    ensures ready { OnOk result (IsReady step.new) }
{
    fault_before_echoed(&step.store, id)?;
    obey_for_question(step, alloc, id, true)?;
    waive(&mut step.store, id);
    let exception = exception_of(alloc, ExceptionKind::Unimplemented, "unimplemented")?;
    come_back(step, alloc, id, Returned::Exception(exception))
}
