ghost use Rattle.std.specs.Prelude.{◌≡◌, Some, None, OnOk, IfErr};
ghost use Rattle.rpc_msg.specs.declared.exception.Exception.{Exception};
ghost use Rattle.rpc_machine.specs.declared.command.Command.TheVariants as command;
ghost use Rattle.rpc_machine.specs.Refusals.{refused};
ghost use Rattle.core_store.specs.Holding.{state_of};

use crate::refusals::{has_caps, has_level, has_refs, has_task, is_up};
use core_store::Store;
use rpc_machine::Refusal;
use rpc_msg::{Items, Payload, RefId, TaskId};

/// Whether `answer` is refused, and with what.
pub fn check_answer(
    store: &Store,
    task: TaskId,
    payload: &Payload,
    refs: &Items<RefId>,
) -> Result<(), Refusal>
    ensures ok { OnOk result (refused (state_of store.now) (command.Answer task payload.now refs.now) ≡ None) }
    ensures err { IfErr result (λ r. refused (state_of store.now) (command.Answer task payload.now refs.now) ≡ Some r) }
{
    is_up(store)?;
    has_level(store, !refs.is_empty())?;
    has_refs(store, refs)?;
    has_task(store, task)?;
    has_caps(payload, refs)
}

/// Whether `fail` is refused, whatever the exception, and with what.
pub fn check_fail(store: &Store, task: TaskId) -> Result<(), Refusal>
    ensures ok { (exception : Exception) → OnOk result (refused (state_of store.now) (command.Fail task exception) ≡ None) }
    ensures err { (exception : Exception) → IfErr result (λ r. refused (state_of store.now) (command.Fail task exception) ≡ Some r) }
{
    is_up(store)?;
    has_task(store, task)
}
