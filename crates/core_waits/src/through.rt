ghost use Rattle.std.specs.Prelude.{◌≡◌};
ghost use Rattle.std.specs.List.{list_any};
ghost use Rattle.finite_maps.specs.Tally.{map_values};
ghost use Rattle.rpc_machine.specs.Lists.{of_map};
ghost use Rattle.rpc_machine.specs.Queries.{stamps_at_outcome, stamps_at_promise, stamps_under};
ghost use Rattle.core_waits.specs.Waiting.{calls_at, embargo_list, embargo_with, outcome_list, outcome_with, promise_list, promise_with, seen_by};
ghost use Rattle.core_waits.specs.Through.{is_among, is_by};

use crate::entries::{EmbargoEntry, OutcomeEntry, PromiseEntry};
use rpc_machine::HeldCall;
use rpc_msg::{RefId, Vat};
use vat_tables::{HeldPool, ListKey, Picked};

/// Whether a call of that reference waits for one of the promises.
pub(crate) fn promises_hold(
    promises: &Picked<PromiseEntry>,
    pool: &HeldPool<HeldCall>,
    vat: Vat,
    reference: RefId,
) -> bool
    ensures { result ≡ list_any (is_by vat reference)
        (of_map stamps_at_promise (map_values (seen_by promise_list promise_with pool.now.lists) promises.now.entries)) }
{
    for (_key, entry) in promises.iter() {
        if promise_holds(entry, pool, vat, reference) {
            return true;
        }
    }
    false
}

/// Whether a call of that reference waits for one of the outcomes.
pub(crate) fn outcomes_hold(
    outcomes: &Picked<OutcomeEntry>,
    pool: &HeldPool<HeldCall>,
    vat: Vat,
    reference: RefId,
) -> bool
    ensures { result ≡ list_any (is_by vat reference)
        (of_map stamps_at_outcome (map_values (seen_by outcome_list outcome_with pool.now.lists) outcomes.now.entries)) }
{
    for (_key, entry) in outcomes.iter() {
        if list_holds(pool, entry.list, vat, reference) {
            return true;
        }
    }
    false
}

/// Whether a call of that reference waits for the end of one of the embargoes.
pub(crate) fn embargoes_hold(
    embargoes: &Picked<EmbargoEntry>,
    pool: &HeldPool<HeldCall>,
    vat: Vat,
    reference: RefId,
) -> bool
    ensures { result ≡ list_any (is_by vat reference)
        (of_map stamps_under (map_values (seen_by embargo_list embargo_with pool.now.lists) embargoes.now.entries)) }
{
    for (_key, entry) in embargoes.iter() {
        if list_holds(pool, entry.list, vat, reference) {
            return true;
        }
    }
    false
}

// Whether a call of that reference waits for a promise; for one that is settled none does.
fn promise_holds(
    entry: &PromiseEntry,
    pool: &HeldPool<HeldCall>,
    vat: Vat,
    reference: RefId,
) -> bool
    ensures { result ≡ list_any (is_by vat reference) (stamps_at_promise 0 (seen_by promise_list promise_with pool.now.lists entry.now)) }
{
    match entry.to {
        Some(_) => false,
        None => list_holds(pool, entry.list, vat, reference),
    }
}

// Whether a call of that reference is in a list, if one is meant.
fn list_holds(pool: &HeldPool<HeldCall>, list: Option<ListKey>, vat: Vat, reference: RefId) -> bool
    ensures { result ≡ is_among vat reference (calls_at pool.now.lists list) }
{
    match list {
        Some(key) => pool.any_in(key, |held| is_of(held, vat, reference)),
        None => false,
    }
}

fn is_of(held: &HeldCall, vat: Vat, reference: RefId) -> bool
    ensures { result ≡ is_by vat reference held.now.call.request.stamp }
{
    let stamp = held.call.request.stamp;
    vat == stamp.vat && reference.0 == stamp.reference.0
}
