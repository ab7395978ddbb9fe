ghost use Rattle.std.specs.Prelude.{◌≡◌, Some, None, true, false, OnOk, IfErr};
ghost use Rattle.std.specs.FinMap as map;
ghost use Rattle.rpc_machine.specs.declared.command.Command.TheVariants as command;
ghost use Rattle.rpc_machine.specs.declared.command.Refusal.TheVariants as refusal;
ghost use Rattle.rpc_machine.specs.Refusals.{refused};
ghost use Rattle.rpc_machine.specs.Fullness.{has_no_room, switch_lacks_room, advance_by, advance_lacks_room};
ghost use Rattle.core_store.specs.Holding.{state_of, IsSound};
ghost use Rattle.rpc_machine.specs.Advancing.{known_of_wire};
ghost use Rattle.core_step_checks.specs.Wires.{as_known};

use crate::known::{Known, known_of_wire, leads_back};
use crate::refusals::{has_call, has_level, has_number, has_ref, is_up};
use core_store::{Store, settle};
use rpc_machine::{Node, Refusal};
use rpc_msg::{CallId, Descriptor, Items, ObjectId, Op, RefId};
use vat_tables::TABLE_LIMIT;

// Of a path that an application gives.
const LONGEST_PATH: usize = 16;

/// Whether `host` is refused, and with what.
pub fn check_host(store: &Store, object: ObjectId) -> Result<(), Refusal>
    ensures ok { OnOk result (refused (state_of store.now) (command.Host object) ≡ None) }
    ensures err { IfErr result (λ r. refused (state_of store.now) (command.Host object) ≡ Some r) }
{
    // Only the contract speaks of it, and the compiler counts it as unused.
    let _ = object;
    is_up(store)?;
    has_number(store.next_ref)
}

/// Whether `clone_ref` is refused, and with what.
pub fn check_clone_ref(store: &Store, id: RefId) -> Result<(), Refusal>
    ensures ok { OnOk result (refused (state_of store.now) (command.CloneRef id) ≡ None) }
    ensures err { IfErr result (λ r. refused (state_of store.now) (command.CloneRef id) ≡ Some r) }
{
    is_up(store)?;
    has_ref(store, id)?;
    has_number(store.next_ref)
}

/// Whether `field` is refused, and with what.
pub fn check_field(store: &Store, id: CallId, path: &Items<Op>) -> Result<(), Refusal>
    ensures ok { OnOk result (refused (state_of store.now) (command.Field id path.now) ≡ None) }
    ensures err { IfErr result (λ r. refused (state_of store.now) (command.Field id path.now) ≡ Some r) }
{
    is_up(store)?;
    has_call(store, id)?;
    if path.len() > LONGEST_PATH {
        return Err(Refusal::LongPath);
    }
    has_number(store.next_ref)
}

/// Whether `drop_ref` is refused, and with what.
pub fn check_drop_ref(store: &Store, id: RefId) -> Result<(), Refusal>
    ensures ok { OnOk result (refused (state_of store.now) (command.DropRef id) ≡ None) }
    ensures err { IfErr result (λ r. refused (state_of store.now) (command.DropRef id) ≡ Some r) }
{
    is_up(store)?;
    has_ref(store, id)
}

// One more embargo has room.
fn has_embargo_room(store: &Store) -> Result<(), Refusal>
    ensures ok { OnOk result (has_no_room store.now.waits.embargoes ≡ false) }
    ensures err { IfErr result (λ r. (r ≡ refusal.Full) × (has_no_room store.now.waits.embargoes ≡ true)) }
{
    if store.waits.embargoes() < TABLE_LIMIT {
        Ok(())
    } else {
        Err(Refusal::Full)
    }
}

// What its wire was resolved to decides whether a reference takes an embargo.
fn has_switch_room(store: &Store, said: Descriptor) -> Result<(), Refusal>
    ensures ok { OnOk result (switch_lacks_room (state_of store.now) said ≡ false) }
    ensures err { IfErr result (λ r. (r ≡ refusal.Full) × (switch_lacks_room (state_of store.now) said ≡ true)) }
{
    match said {
        Descriptor::ReceiverHosted(_) => has_embargo_room(store),
        Descriptor::ReceiverAnswer(_, _) => has_embargo_room(store),
        _ => Ok(()),
    }
}

// By what is known of the wire to which a head settles.
fn has_room_knowing(store: &Store, wire: Node, known: &Known) -> Result<(), Refusal>
    requires sound { IsSound store.now }
    requires known { as_known known.now ≡ known_of_wire (state_of store.now) wire }
    ensures ok { OnOk result (advance_by (state_of store.now) wire (as_known known.now) ≡ false) }
    ensures err { IfErr result (λ r. (r ≡ refusal.Full) × (advance_by (state_of store.now) wire (as_known known.now) ≡ true)) }
{
    match known {
        Known::Nothing => Ok(()),
        Known::Broken(_) => Ok(()),
        Known::Leads(said, to) => {
            if leads_back(store, *to, wire) {
                Ok(())
            } else {
                has_switch_room(store, *said)
            }
        }
    }
}

fn has_room_from(store: &Store, wire: &Node) -> Result<(), Refusal>
    requires { IsSound store.now }
    ensures ok { OnOk result (advance_by (state_of store.now) wire.now (known_of_wire (state_of store.now) wire.now) ≡ false) }
    ensures err { IfErr result (λ r. (r ≡ refusal.Full) × (advance_by (state_of store.now) wire.now (known_of_wire (state_of store.now) wire.now) ≡ true)) }
{
    let known = known_of_wire(store, *wire);
    has_room_knowing(store, *wire, &known)
}

// An advance takes one embargo at most.
#[tactic(auto, using(crate::proofs::Turning::advance_has))]
fn has_advance_room(store: &Store, id: RefId) -> Result<(), Refusal>
    requires { IsSound store.now }
    ensures ok { OnOk result (advance_lacks_room (state_of store.now) (map.get store.now.refs.entries id.0) ≡ false) }
    ensures err { IfErr result (λ r. (r ≡ refusal.Full) × (advance_lacks_room (state_of store.now) (map.get store.now.refs.entries id.0) ≡ true)) }
{
    match has_embargo_room(store) {
        Ok(()) => Ok(()),
        Err(_) => needs_no_embargo(store, id),
    }
}

// Whether it takes none.
#[cold]
#[inline(never)]
fn needs_no_embargo(store: &Store, id: RefId) -> Result<(), Refusal>
    requires { IsSound store.now }
    ensures ok { OnOk result (advance_lacks_room (state_of store.now) (map.get store.now.refs.entries id.0) ≡ false) }
    ensures err { IfErr result (λ r. (r ≡ refusal.Full) × (advance_lacks_room (state_of store.now) (map.get store.now.refs.entries id.0) ≡ true)) }
{
    let Some(reference) = store.refs.get(id.0) else {
        return Ok(());
    };
    match reference.embargo {
        Some(_) => Ok(()),
        None => has_room_from(store, &settle(store, reference.head)),
    }
}

/// Whether `advance` is refused, and with what.
pub fn check_advance(store: &Store, id: RefId) -> Result<(), Refusal>
    requires { IsSound store.now }
    ensures ok { OnOk result (refused (state_of store.now) (command.Advance id) ≡ None) }
    ensures err { IfErr result (λ r. refused (state_of store.now) (command.Advance id) ≡ Some r) }
{
    is_up(store)?;
    has_level(store, true)?;
    has_ref(store, id)?;
    has_advance_room(store, id)
}
