ghost use Rattle.std.specs.Prelude.{◌≡◌, None, [], IfOk, OnOk, IfErr};
ghost use Rattle.std.specs.FinMap as map;
ghost use Rattle.rpc_msg.specs.declared.message.PlainMessage.TheVariants as plain;
ghost use Rattle.rpc_machine.specs.Faults.{plain_fault};
ghost use Rattle.rpc_machine.specs.Messages.{TakesBootstrap, TakesPlain, bootstrap_value};
ghost use Rattle.core_store.specs.Holding.{state_of};
ghost use Rattle.core_step.specs.InProgress.{progress_of, IsReady};
ghost use Rattle.core_step_messages.specs.Stopping.{Stops};

use crate::answers::open_with;
use core_step::Step;
use core_step_checks::fault_of_bootstrap;
use core_step_settles::settle_outcome;
use rpc_machine::{Fault, Node, Value};
use rpc_msg::{Exception, ExceptionKind, Items, Memory, ObjectId, Payload, QuestionId, Text};
use std::alloc::Global;

// What the answer to a Bootstrap says.
fn value_of(alloc: Global, object: Option<ObjectId>) -> Result<Value, Memory>
    ensures { IfOk result (λ value. value ≡ bootstrap_value object) }
{
    let Some(object) = object else {
        let reason = Text::new(alloc, "no bootstrap")?;
        return Ok(Value::Exception(Exception {
            kind: ExceptionKind::Failed,
            reason,
        }));
    };
    let payload = Payload::root_capability(alloc)?;
    let Ok(caps) = Items::one(alloc, Node::Object(object)) else {
        return Err(Memory);
    };
    Ok(Value::Results(payload, caps))
}

fn answer_at_once(step: &mut Step, alloc: Global, question: QuestionId) -> Result<(), Memory>
    requires ready { IsReady step.old }
    requires none_taken { step.old.store.waits.taken ≡ [] }
    requires new { map.get (state_of step.old.store).answers question.0 ≡ None }
    ensures takes { OnOk result (TakesBootstrap (progress_of step.old) question.0 (progress_of step.new)) }
    ensures taken { OnOk result (step.new.store.waits.taken ≡ []) }
    ensures ready { OnOk result (IsReady step.new) }
{
    let value = value_of(alloc, step.store.bootstrap)?;
    let outcome = open_with(step, question, Items::new(alloc))?;
    settle_outcome(step, alloc, outcome, value)
}

/// Takes a Bootstrap, which is answered at once. Makes the room for it. `Err` with the fault that it is, or for lack of
/// room or of memory; the step is only to be dropped then.
pub fn take_bootstrap(step: &mut Step, alloc: Global, question: QuestionId) -> Result<(), Fault>
    requires ready { IsReady step.old }
    requires none_taken { step.old.store.waits.taken ≡ [] }
    ensures none { OnOk result (plain_fault (state_of step.old.store) (plain.Bootstrap question) ≡ None) }
    ensures fault { IfErr result (λ f. Stops (plain_fault (state_of step.old.store) (plain.Bootstrap question)) f) }
    ensures takes { OnOk result (TakesPlain (progress_of step.old) (plain.Bootstrap question) (progress_of step.new)) }
    ensures taken { OnOk result (step.new.store.waits.taken ≡ []) }
    ensures ready { OnOk result (IsReady step.new) }
{
    // A copy: what is passed by value can't be used again, though its type is `Copy`.
    let asked = question;
    fault_of_bootstrap(&step.store, question)?;
    let Ok(()) = answer_at_once(step, alloc, asked) else {
        return Err(Fault::WantOfRoom);
    };
    Ok(())
}
