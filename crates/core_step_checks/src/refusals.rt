ghost use Rattle.std.specs.Prelude.{◌≡◌, Some, None, true, false, IsSome, OnOk, IfErr};
ghost use Rattle.std.specs.List.{list_all};
ghost use Rattle.std.specs.FinMap as map;
ghost use Rattle.rpc_machine.specs.declared.command.Refusal.TheVariants as refusal;
ghost use Rattle.rpc_machine.specs.Refusals.{wrong_level, is_known_ref, unknown_call, unknown_task, unknown_promise, wrong_caps};
ghost use Rattle.rpc_machine.specs.Fullness.{is_spent, has_no_room};
ghost use Rattle.core_store.specs.Holding.{state_of};

use core_store::Store;
use rpc_machine::{Level, Refusal};
use rpc_msg::{CallId, Payload, PromiseId, RefId, TaskId};
use vat_tables::TABLE_LIMIT;

pub(crate) fn is_up(store: &Store) -> Result<(), Refusal>
    ensures ok { OnOk result (store.now.down ≡ None) }
    ensures err { IfErr result (λ r. (r ≡ refusal.Down) × (IsSome store.now.down)) }
{
    match store.down {
        None => Ok(()),
        Some(_) => Err(Refusal::Down),
    }
}

// A vat of level 0 has no promises and sends no references.
pub(crate) fn has_level(store: &Store, wanted: bool) -> Result<(), Refusal>
    ensures ok { OnOk result (wrong_level (state_of store.now) wanted ≡ None) }
    ensures err { IfErr result (λ r. wrong_level (state_of store.now) wanted ≡ Some r) }
{
    match store.level {
        Level::One => Ok(()),
        Level::Zero => { if wanted { Err(Refusal::Level) } else { Ok(()) } }
    }
}

pub(crate) fn has_ref(store: &Store, id: RefId) -> Result<(), Refusal>
    ensures ok { OnOk result (map.contains_key store.now.refs.entries id.0 ≡ true) }
    ensures err { IfErr result (λ r. (r ≡ refusal.UnknownRef) × (map.contains_key store.now.refs.entries id.0 ≡ false)) }
{
    match store.refs.get(id.0) {
        Some(_) => Ok(()),
        None => Err(Refusal::UnknownRef),
    }
}

pub(crate) fn has_call(store: &Store, id: CallId) -> Result<(), Refusal>
    ensures ok { OnOk result (unknown_call (state_of store.now) id.0 ≡ None) }
    ensures err { IfErr result (λ r. unknown_call (state_of store.now) id.0 ≡ Some r) }
{
    match store.calls.get(id.0) {
        Some(_) => Ok(()),
        None => Err(Refusal::UnknownCall),
    }
}

pub(crate) fn has_task(store: &Store, id: TaskId) -> Result<(), Refusal>
    ensures ok { OnOk result (unknown_task (state_of store.now) id.0 ≡ None) }
    ensures err { IfErr result (λ r. unknown_task (state_of store.now) id.0 ≡ Some r) }
{
    match store.tasks.get(id.0) {
        Some(_) => Ok(()),
        None => Err(Refusal::UnknownTask),
    }
}

pub(crate) fn has_promise(store: &Store, id: PromiseId) -> Result<(), Refusal>
    ensures ok { OnOk result (unknown_promise (state_of store.now) id.0 ≡ None) }
    ensures err { IfErr result (λ r. unknown_promise (state_of store.now) id.0 ≡ Some r) }
{
    match store.unsettled.get(id.0) {
        Some(_) => Ok(()),
        None => Err(Refusal::UnknownPromise),
    }
}

pub(crate) fn has_number(next: u64) -> Result<(), Refusal>
    ensures ok { OnOk result (is_spent next 1 ≡ false) }
    ensures err { IfErr result (λ r. (r ≡ refusal.Full) × (is_spent next 1 ≡ true)) }
{
    match next.checked_add(1) {
        Some(_) => Ok(()),
        None => Err(Refusal::Full),
    }
}

// All of them are there.
pub(crate) fn has_refs(store: &Store, ids: &[RefId]) -> Result<(), Refusal>
    ensures ok { OnOk result (list_all (is_known_ref (state_of store.now)) ids.now ≡ true) }
    ensures err { IfErr result (λ r. (r ≡ refusal.UnknownRef) × (list_all (is_known_ref (state_of store.now)) ids.now ≡ false)) }
{
    for id in ids {
        has_ref(store, *id)?;
    }
    Ok(())
}

pub(crate) fn has_question_room(store: &Store) -> Result<(), Refusal>
    ensures ok { OnOk result (has_no_room store.now.questions.entries ≡ false) }
    ensures err { IfErr result (λ r. (r ≡ refusal.Full) × (has_no_room store.now.questions.entries ≡ true)) }
{
    if store.questions.len() < TABLE_LIMIT {
        Ok(())
    } else {
        Err(Refusal::Full)
    }
}

// As many capabilities as references.
pub(crate) fn has_caps(payload: &Payload, refs: &[RefId]) -> Result<(), Refusal>
    ensures ok { OnOk result (wrong_caps payload.now refs.now ≡ None) }
    ensures err { IfErr result (λ r. wrong_caps payload.now refs.now ≡ Some r) }
{
    if payload.caps() as usize == refs.len() {
        Ok(())
    } else {
        Err(Refusal::CapCount)
    }
}
