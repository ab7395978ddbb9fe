ghost use Rattle.std.specs.Prelude.{◌≡◌, ℕ, [], IsTrue, MatchBool};
ghost use Rattle.std.specs.FinMap as map;
ghost use Rattle.rpc_machine.specs.Collecting.{IsLoosePromise, IsLooseOutcome, IsLooseImport, IsTight, Collects};
ghost use Rattle.core_refcounts.specs.Names.{Counts};
ghost use Rattle.core_store.specs.Holding.{state_of, all_named, IsCovered, IsSound};
ghost use Rattle.core_step.specs.InProgress.{progress_of, IsReady, IsEnding};
ghost use Rattle.core_step_collects.specs.Dropping.{Drops, Rests, OnlyReleases};

use crate::search::{next_loose_import, next_loose_outcome, next_loose_promise};
use core_step::Step;
use core_store::Store;
use core_store_tables::take_import;
use core_store_waits::{remove_outcome, remove_promise};

/// What no place names goes, one thing after the other, until nothing is left that would; each import is released with its
/// whole count. Takes no memory. No call may be taken out to be routed.
pub fn collect(step: &mut Step)
    requires ready { IsReady step.old }
    requires none_taken { step.old.store.waits.taken ≡ [] }
    ensures collects { Collects (progress_of step.new) (progress_of step.old) }
    ensures taken { step.new.store.waits.taken ≡ [] }
    ensures left { step.new.store.slack ≡ step.old.store.slack }
    ensures ready { IsReady step.new }
{
    collect_ending(step);
}

/// As `collect`, when Finishes may be made already: they stay, as does all that the step said.
#[inline(always)]
pub fn collect_ending(step: &mut Step)
    requires ending { IsEnding step.old }
    requires none_taken { step.old.store.waits.taken ≡ [] }
    ensures collects { Collects (progress_of step.new) (progress_of step.old) }
    ensures taken { step.new.store.waits.taken ≡ [] }
    ensures rest { OnlyReleases step.old step.new }
    ensures ending { IsEnding step.new }
{
    if no_thing_is_noted(&step.store) {
        return;
    }
    drop_all(step);
}

// Whether no promise, outcome or import is noted, so that nothing may go.
fn no_thing_is_noted(store: &Store) -> bool
    requires covered { IsCovered (state_of store.now) store.now.names }
    requires counted { Counts store.now.names (all_named store.now) }
    requires none_taken { store.now.waits.taken ≡ [] }
    ensures { IsTrue result → IsTight (state_of store.now) }
{
    store.names.noted_promises().is_empty()
        && store.names.noted_outcomes().is_empty()
        && store.names.noted_imports().is_empty()
}

// What no place names goes, one thing after the other, until nothing is left that would.
fn drop_all(step: &mut Step)
    requires ending { IsEnding step.old }
    requires none_taken { step.old.store.waits.taken ≡ [] }
    ensures collects { Collects (progress_of step.new) (progress_of step.old) }
    ensures taken { step.new.store.waits.taken ≡ [] }
    ensures rest { OnlyReleases step.old step.new }
    ensures ending { IsEnding step.new }
{
    'dropping: while drop_one(step) {}
}

// One thing goes that no place names, if there is one.
fn drop_one(step: &mut Step) -> bool
    requires ending { IsEnding step.old }
    requires none_taken { step.old.store.waits.taken ≡ [] }
    ensures drops { MatchBool result (Drops step.old step.new) (Rests step.old step.new (IsTight (state_of step.old.store))) }
    ensures taken { step.new.store.waits.taken ≡ [] }
    ensures rest { OnlyReleases step.old step.new }
    ensures ending { IsEnding step.new }
{
    if drop_promise(step) {
        return true;
    }
    if drop_outcome(step) {
        return true;
    }
    drop_import(step)
}

// A promise goes that no place names, if there is one.
fn drop_promise(step: &mut Step) -> bool
    requires ending { IsEnding step.old }
    requires none_taken { step.old.store.waits.taken ≡ [] }
    ensures drops { MatchBool result (Drops step.old step.new) (Rests step.old step.new ((p : ℕ) → ¬ (IsLoosePromise (state_of step.old.store) p (map.get (state_of step.old.store).promises p)))) }
    ensures taken { step.new.store.waits.taken ≡ [] }
    ensures rest { OnlyReleases step.old step.new }
    ensures ending { IsEnding step.new }
{
    let Some(key) = next_loose_promise(&mut step.store) else {
        return false;
    };
    let_promise_go(&mut step.store, key);
    true
}

// The promise goes. Apart, since a look at what is noted mostly finds nothing that goes.
#[inline(never)]
fn let_promise_go(store: &mut Store, key: u64)
    requires sound { IsSound store.old }
    requires loose { IsLoosePromise (state_of store.old) key (map.get (state_of store.old).promises key) }
    ensures state { state_of store.new ≡ record (state_of store.old) { promises = map.remove (state_of store.old).promises key } }
    ensures taken { store.new.waits.taken ≡ store.old.waits.taken }
    ensures left { store.new.slack ≡ store.old.slack }
    ensures sound { IsSound store.new }
{
    let Some(_) = remove_promise(store, key) else {
        unreachable!()
    };
}

// An outcome goes of which no place names a field, if there is one that may go.
fn drop_outcome(step: &mut Step) -> bool
    requires ending { IsEnding step.old }
    requires none_taken { step.old.store.waits.taken ≡ [] }
    ensures drops { MatchBool result (Drops step.old step.new) (Rests step.old step.new ((o : ℕ) → ¬ (IsLooseOutcome (state_of step.old.store) o (map.get (state_of step.old.store).outcomes o)))) }
    ensures taken { step.new.store.waits.taken ≡ [] }
    ensures rest { OnlyReleases step.old step.new }
    ensures ending { IsEnding step.new }
{
    let Some(key) = next_loose_outcome(&mut step.store) else {
        return false;
    };
    let_outcome_go(&mut step.store, key);
    true
}

// The outcome goes, likewise apart.
#[inline(never)]
fn let_outcome_go(store: &mut Store, key: u64)
    requires sound { IsSound store.old }
    requires loose { IsLooseOutcome (state_of store.old) key (map.get (state_of store.old).outcomes key) }
    ensures state { state_of store.new ≡ record (state_of store.old) { outcomes = map.remove (state_of store.old).outcomes key } }
    ensures taken { store.new.waits.taken ≡ store.old.waits.taken }
    ensures left { store.new.slack ≡ store.old.slack }
    ensures sound { IsSound store.new }
{
    remove_outcome(store, key);
}

// An import goes that no place names, if there is one, and is to be released.
fn drop_import(step: &mut Step) -> bool
    requires ending { IsEnding step.old }
    requires none_taken { step.old.store.waits.taken ≡ [] }
    ensures drops { MatchBool result (Drops step.old step.new) (Rests step.old step.new ((e : ℕ) → ¬ (IsLooseImport (state_of step.old.store) e (map.get (state_of step.old.store).imports e)))) }
    ensures taken { step.new.store.waits.taken ≡ [] }
    ensures rest { OnlyReleases step.old step.new }
    ensures ending { IsEnding step.new }
{
    let Some(id) = next_loose_import(&mut step.store) else {
        return false;
    };
    let Some(count) = take_import(&mut step.store, id) else {
        unreachable!()
    };
    let Ok(()) = step.outbox.release(id, count) else {
        unreachable!()
    };
    true
}
