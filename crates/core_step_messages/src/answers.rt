ghost use Rattle.std.specs.Prelude.{◌≡◌, None, IfOk, OnOk};
ghost use Rattle.std.specs.FinMap as map;
ghost use Rattle.rpc_machine.specs.Progress.{with_state};
ghost use Rattle.core_store.specs.Holding.{state_of};
ghost use Rattle.core_step.specs.InProgress.{progress_of, IsReady};
ghost use Rattle.core_step_messages.specs.Parts.{opened_with};

use core_step::{Step, reserve};
use core_store_tables::open_answer;
use core_store_waits::new_outcome;
use rpc_machine::Caller;
use rpc_msg::{ExportId, Items, Memory, QuestionId};

/// Opens an answer of a new outcome, whose key it gives, to a question that gave these imports, and makes the room for it.
/// `Err` for lack of memory, or at 4,096 answers; the step is only to be dropped then.
pub(crate) fn open_with(
    step: &mut Step,
    question: QuestionId,
    taken: Items<ExportId>,
) -> Result<u64, Memory>
    requires ready { IsReady step.old }
    requires new { map.get (state_of step.old.store).answers question.0 ≡ None }
    ensures free { IfOk result (λ o. map.get (state_of step.old.store).outcomes o ≡ None) }
    ensures opened { IfOk result (λ o. progress_of step.new ≡ with_state (progress_of step.old) (opened_with (state_of step.old.store) question.0 o taken)) }
    ensures taken { OnOk result (step.new.store.waits.taken ≡ step.old.store.waits.taken) }
    ensures ready { OnOk result (IsReady step.new) }
{
    let Some(more) = taken.len().checked_add(2) else {
        return Err(Memory);
    };
    reserve(step, more)?;
    let outcome = new_outcome(&mut step.store, Caller::Peer(question));
    let Ok(()) = open_answer(&mut step.store, question, outcome, taken) else {
        return Err(Memory);
    };
    Ok(outcome)
}
