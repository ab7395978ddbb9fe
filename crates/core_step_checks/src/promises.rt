ghost use Rattle.std.specs.Prelude.{◌≡◌, Some, None, true, false, OnOk, IfErr};
ghost use Rattle.rpc_msg.specs.declared.exception.Exception.{Exception};
ghost use Rattle.rpc_machine.specs.declared.command.Command.TheVariants as command;
ghost use Rattle.rpc_machine.specs.declared.command.Refusal.TheVariants as refusal;
ghost use Rattle.rpc_machine.specs.Refusals.{refused, is_cycle};
ghost use Rattle.core_store.specs.Holding.{state_of, IsSound};

use crate::refusals::{has_level, has_number, has_promise, has_ref, is_up};
use core_store::{Store, settle};
use rpc_machine::{Node, Refusal};
use rpc_msg::{PromiseId, RefId};

// The reference does not settle to the promise.
fn makes_no_circle(store: &Store, promise: PromiseId, id: RefId) -> Result<(), Refusal>
    requires { IsSound store.now }
    ensures ok { OnOk result (is_cycle (state_of store.now) promise.0 id.0 ≡ false) }
    ensures err { IfErr result (λ r. (r ≡ refusal.Cycle) × (is_cycle (state_of store.now) promise.0 id.0 ≡ true)) }
{
    let Some(own) = store.unsettled.get(promise.0) else {
        return Ok(());
    };
    let Some(reference) = store.refs.get(id.0) else {
        return Ok(());
    };
    match settle(store, reference.head) {
        Node::Promise(key) => {
            if key == *own {
                Err(Refusal::Cycle)
            } else {
                Ok(())
            }
        }
        _ => Ok(()),
    }
}

/// Whether `promise` is refused, and with what.
pub fn check_promise(store: &Store) -> Result<(), Refusal>
    ensures ok { OnOk result (refused (state_of store.now) command.Promise ≡ None) }
    ensures err { IfErr result (λ r. refused (state_of store.now) command.Promise ≡ Some r) }
{
    is_up(store)?;
    has_level(store, true)?;
    has_number(store.next_promise)?;
    has_number(store.next_ref)
}

/// Whether `resolve` is refused, and with what.
pub fn check_resolve(store: &Store, promise: PromiseId, id: RefId) -> Result<(), Refusal>
    requires { IsSound store.now }
    ensures ok { OnOk result (refused (state_of store.now) (command.Resolve promise id) ≡ None) }
    ensures err { IfErr result (λ r. refused (state_of store.now) (command.Resolve promise id) ≡ Some r) }
{
    is_up(store)?;
    has_level(store, true)?;
    has_ref(store, id)?;
    has_promise(store, promise)?;
    makes_no_circle(store, promise, id)
}

/// Whether `reject` is refused, whatever the exception, and with what.
pub fn check_reject(store: &Store, promise: PromiseId) -> Result<(), Refusal>
    ensures ok { (exception : Exception) → OnOk result (refused (state_of store.now) (command.Reject promise exception) ≡ None) }
    ensures err { (exception : Exception) → IfErr result (λ r. refused (state_of store.now) (command.Reject promise exception) ≡ Some r) }
{
    is_up(store)?;
    has_level(store, true)?;
    has_promise(store, promise)
}
