ghost use Rattle.std.specs.Prelude.{◌≡◌, Some, None, true, false, OnOk, IfErr, ◌||◌, [], nat_le, option_copied};
ghost use Rattle.std.specs.FinMap as map;
ghost use Rattle.rpc_machine.specs.declared.command.Command.TheVariants as command;
ghost use Rattle.rpc_machine.specs.declared.command.Refusal.TheVariants as refusal;
ghost use Rattle.rpc_machine.specs.Refusals.{refused};
ghost use Rattle.rpc_machine.specs.Fullness.{is_spent};
ghost use Rattle.core_store.specs.Holding.{state_of, IsSound};
ghost use Rattle.rpc_machine.specs.Commands.{heads};
ghost use Rattle.rpc_machine.specs.Limits.{held, held_limit};
ghost use Rattle.core_step_checks.specs.Rooms.{lacks_at, lacks_through, call_lacks, refused_but_exports, exports_lack_at, exports_lack};

use crate::exports::check_call_exports;
use crate::laws::calls_are_refused;
use crate::refusals::{
    has_call, has_caps, has_level, has_number, has_question_room, has_refs, is_up,
};
use core_store::{Store, settle};
use rpc_machine::{CallCommand, Node, Reference, Refusal};
use rpc_msg::{CallId, RefId};
use std::alloc::Global;
use vat_tables::POOL_LIMIT;

/// Whether `bootstrap` is refused, and with what.
pub fn check_bootstrap(store: &Store) -> Result<(), Refusal>
    requires { IsSound store.now }
    ensures ok { OnOk result (refused (state_of store.now) command.Bootstrap ≡ None) }
    ensures err { IfErr result (λ r. refused (state_of store.now) command.Bootstrap ≡ Some r) }
{
    is_up(store)?;
    has_question_room(store)?;
    has_number(store.next_call)
}

fn has_numbers(next: u64, more: usize) -> Result<(), Refusal>
    ensures ok { OnOk result (is_spent next more ≡ false) }
    ensures err { IfErr result (λ r. (r ≡ refusal.Full) × (is_spent next more ≡ true)) }
{
    match next.checked_add(more as u64) {
        Some(_) => Ok(()),
        None => Err(Refusal::Full),
    }
}

// One more call may wait.
fn has_held_room(store: &Store) -> Result<(), Refusal>
    requires sound { IsSound store.now }
    requires handed_out { store.now.waits.taken ≡ [] }
    ensures ok { OnOk result (nat_le held_limit (held (state_of store.now)) ≡ false) }
    ensures err { IfErr result (λ r. (r ≡ refusal.Full) × (nat_le held_limit (held (state_of store.now)) ≡ true)) }
{
    if store.waits.held() < POOL_LIMIT {
        Ok(())
    } else {
        Err(Refusal::Full)
    }
}

fn has_task_room(store: &Store, caps: usize) -> Result<(), Refusal>
    ensures ok { OnOk result ((is_spent store.now.next_task 1 ≡ false) × (is_spent store.now.next_ref caps ≡ false)) }
    ensures err { IfErr result (λ r. (r ≡ refusal.Full) × ((is_spent store.now.next_task 1 || is_spent store.now.next_ref caps) ≡ true)) }
{
    has_number(store.next_task)?;
    has_numbers(store.next_ref, caps)
}

// By where the call goes.
fn has_room_at(store: &Store, caps: usize, node: Node) -> Result<(), Refusal>
    requires sound { IsSound store.now }
    requires handed_out { store.now.waits.taken ≡ [] }
    ensures ok { OnOk result (lacks_at (state_of store.now) caps node ≡ false) }
    ensures err { IfErr result (λ r. (r ≡ refusal.Full) × (lacks_at (state_of store.now) caps node ≡ true)) }
{
    match node {
        Node::Object(_) => has_task_room(store, caps),
        Node::Promise(_) => has_held_room(store),
        Node::Field(_, _) => has_held_room(store),
        Node::Import(_) => has_question_room(store),
        Node::Pipe(_, _) => has_question_room(store),
        Node::Broken(_) => Ok(()),
    }
}

fn has_room_through(store: &Store, caps: usize, reference: &Reference) -> Result<(), Refusal>
    requires sound { IsSound store.now }
    requires handed_out { store.now.waits.taken ≡ [] }
    ensures ok { OnOk result (lacks_through (state_of store.now) caps reference.now.head reference.now.embargo ≡ false) }
    ensures err { IfErr result (λ r. (r ≡ refusal.Full) × (lacks_through (state_of store.now) caps reference.now.head reference.now.embargo ≡ true)) }
{
    match reference.embargo {
        Some(_) => has_held_room(store),
        None => has_room_at(store, caps, settle(store, reference.head)),
    }
}

// All but the exports have room for a call through a reference.
fn has_call_room(store: &Store, caps: usize, reference: &Reference) -> Result<(), Refusal>
    requires sound { IsSound store.now }
    requires handed_out { store.now.waits.taken ≡ [] }
    ensures ok { OnOk result (call_lacks (state_of store.now) caps (Some reference.now) ≡ false) }
    ensures err { IfErr result (λ r. (r ≡ refusal.Full) × (call_lacks (state_of store.now) caps (Some reference.now) ≡ true)) }
{
    has_number(store.next_call)?;
    has_number(reference.made)?;
    has_room_through(store, caps, reference)
}

// By where it goes: over a wire its capabilities go out.
fn has_room_over(store: &Store, alloc: Global, refs: &[RefId], node: Node) -> Result<(), Refusal>
    requires sound { IsSound store.now }
    ensures ok { OnOk result (exports_lack_at (state_of store.now) (heads (state_of store.now) refs.now) node ≡ false) }
    ensures err { IfErr result (λ r. (r ≡ refusal.Full) × (exports_lack_at (state_of store.now) (heads (state_of store.now) refs.now) node ≡ true)) }
{
    match node {
        Node::Object(_) => Ok(()),
        Node::Promise(_) => Ok(()),
        Node::Field(_, _) => Ok(()),
        Node::Import(_) => check_call_exports(store, alloc, refs),
        Node::Pipe(_, _) => check_call_exports(store, alloc, refs),
        Node::Broken(_) => Ok(()),
    }
}

// If the call goes over a wire, the exports have room for its capabilities.
fn has_export_room(
    store: &Store,
    alloc: Global,
    refs: &[RefId],
    reference: &Reference,
) -> Result<(), Refusal>
    requires sound { IsSound store.now }
    ensures ok { OnOk result (exports_lack (state_of store.now) (heads (state_of store.now) refs.now) (Some reference.now) ≡ false) }
    ensures err { IfErr result (λ r. (r ≡ refusal.Full) × (exports_lack (state_of store.now) (heads (state_of store.now) refs.now) (Some reference.now) ≡ true)) }
{
    match reference.embargo {
        Some(_) => Ok(()),
        None => has_room_over(store, alloc, refs, settle(store, reference.head)),
    }
}

// Whether a call is refused through the reference with its number, if that is there; whatever room the exports have.
fn check_call_through(
    store: &Store,
    call: &CallCommand,
    found: Option<&Reference>,
) -> Result<(), Refusal>
    requires sound { IsSound store.now }
    requires handed_out { store.now.waits.taken ≡ [] }
    requires found { option_copied found ≡ map.get store.now.refs.entries call.now.reference.0 }
    ensures ok { OnOk result (refused_but_exports (state_of store.now) call.now ≡ None) }
    ensures err { IfErr result (λ r. refused_but_exports (state_of store.now) call.now ≡ Some r) }
{
    is_up(store)?;
    has_level(store, !call.refs.is_empty())?;
    let Some(reference) = found else {
        return Err(Refusal::UnknownRef);
    };
    has_refs(store, &call.refs)?;
    has_caps(&call.payload, &call.refs)?;
    has_call_room(store, call.refs.len(), reference)
}

/// Whether `call` is refused, and with what. Memory is taken only near a limit of the exports, and lack of it refuses
/// nothing.
pub fn check_call_whole(store: &Store, alloc: Global, call: &CallCommand) -> Result<(), Refusal>
    requires sound { IsSound store.now }
    requires handed_out { store.now.waits.taken ≡ [] }
    ensures ok { OnOk result (refused (state_of store.now) (command.Call call.now) ≡ None) }
    ensures err { IfErr result (λ r. refused (state_of store.now) (command.Call call.now) ≡ Some r) }
{
    calls_are_refused();
    let found = store.refs.get(call.reference.0);
    check_call_through(store, call, found)?;
    let Some(reference) = found else {
        return Ok(());
    };
    has_export_room(store, alloc, &call.refs, reference)
}

/// Whether `finish` is refused, and with what.
pub fn check_finish(store: &Store, id: CallId) -> Result<(), Refusal>
    ensures ok { OnOk result (refused (state_of store.now) (command.Finish id) ≡ None) }
    ensures err { IfErr result (λ r. refused (state_of store.now) (command.Finish id) ≡ Some r) }
{
    is_up(store)?;
    has_call(store, id)
}
