ghost use Rattle.std.specs.Prelude.{◌≡◌, ℕ, cond, nat_eq, None, Some, OnOk, IfOk};
ghost use Rattle.finite_maps.specs.Tally.{Map};
ghost use Rattle.rpc_machine.specs.declared.entries.Export.{Export};
ghost use Rattle.rpc_machine.specs.Flags.{lower_by};
ghost use Rattle.rpc_machine.specs.Progress.{numbers};
ghost use Rattle.core_store.specs.Holding.{state_of};
ghost use Rattle.core_step_checks.specs.Parts.{fault_of_one, flag_in_turn};
ghost use Rattle.core_step_messages.specs.Foreseen.{number_of, kept_of, left_of, Remains};

use core_store::Store;
use rpc_machine::Fault;
use rpc_msg::{ExportId, Memory};
use std::alloc::Global;
use std::collections::BTreeMap;

/// What is left of the counts of exports that were given back, while the store keeps them as they were.
#[derive(Drop)]
pub(crate) struct Remaining {
    pub(crate) by_id: BTreeMap<u32, u32>,
}

impl Remaining {
    // Takes no memory.
    fn new(alloc: Global) -> Self
        ensures { (e : ℕ) → kept_of result e ≡ None }
    {
        Remaining {
            by_id: BTreeMap::new(alloc),
        }
    }

    fn of(&self, store: &Store, id: ExportId) -> u32
        ensures { result ≡ left_of (state_of store.now) self.now id.0 }
    {
        if let Some(left) = self.by_id.get(&id.0) {
            return *left;
        }
        match store.exports.get(id) {
            Some(export) => export.count,
            None => 0,
        }
    }

    fn set(&mut self, id: ExportId, left: u32) -> Result<(), Memory>
        ensures { OnOk result ((e : ℕ) → kept_of self.new e ≡ cond (nat_eq e id.0) (Some left) (kept_of self.old e)) }
    {
        self.by_id.insert(id.0, left)?;
        Ok(())
    }

    // Gives one back, or finds the fault that there is none.
    fn give_back(&mut self, store: &Store, id: ExportId) -> Result<Option<Fault>, Memory>
        ensures found { IfOk result (λ found. (m : Map Export) → Remains (state_of store.now) m self.old → number_of found ≡ fault_of_one m id.0) }
        ensures remains { IfOk result (λ found. found ≡ None → (m : Map Export) → Remains (state_of store.now) m self.old → Remains (state_of store.now) (lower_by m id.0 1) self.new) }
    {
        let left = self.of(store, id);
        if left == 0 {
            return Ok(Some(Fault::OverRelease));
        }
        self.set(id, left - 1)?;
        Ok(None)
    }
}

/// The fault of a true flag for these exports, if it is one: it takes off more than there is.
pub(crate) fn fault_of_flag(
    store: &Store,
    alloc: Global,
    ids: &[ExportId],
) -> Result<Option<Fault>, Memory>
    ensures { IfOk result (λ found. number_of found ≡ flag_in_turn (state_of store.now).exports (numbers ids.now)) }
{
    let mut remaining = Remaining::new(alloc);
    for id in ids {
        let found = remaining.give_back(store, *id)?;
        if let Some(fault) = found {
            return Ok(Some(fault));
        }
    }
    Ok(None)
}
