ghost use Rattle.std.specs.Prelude.{◌≡◌, IfOk};
ghost use Rattle.std.specs.FinMap as map;
ghost use Rattle.rpc_machine.specs.Lists.{of_map};
ghost use Rattle.rpc_machine.specs.Queries.{counts_of, export_counts, import_counts};
ghost use Rattle.vat_core.specs.Counting.{made_of};

use crate::vat::Core;
use rpc_journal::Counts;
use rpc_msg::{ExportId, Items, Memory, RefId};
use std::alloc::Global;
use vat_tables::{Exports, Imports};

impl Core {
    /// How many calls were made through a reference, if that is there. Takes no memory.
    pub fn calls_made(&self, reference: RefId) -> Option<u64>
        ensures { result ≡ made_of (map.get self.now.refs reference.0) }
    {
        let entry = self.machine.step.store.refs.get(reference.0)?;
        Some(entry.made)
    }

    /// The ids and counts of its exports and imports, by rising id; in memory of their own. `Memory` if a growth was
    /// refused.
    pub fn counts(&self) -> Result<Counts, Memory>
        ensures { IfOk result (λ counts. counts ≡ counts_of self.now) }
    {
        let alloc = self.machine.alloc;
        let exports = counts_of_exports(&self.machine.step.store.exports, alloc)?;
        let imports = counts_of_imports(&self.machine.step.store.imports, alloc)?;
        Ok(Counts { exports, imports })
    }
}

// The ids and counts of the exports, by rising id.
fn counts_of_exports(exports: &Exports, alloc: Global) -> Result<Items<(ExportId, u32)>, Memory>
    ensures { IfOk result (λ counts. counts ≡ of_map export_counts exports.now.entries) }
{
    let counts = exports.counts(alloc)?;
    Ok(Items::from_vec(counts))
}

// The ids and counts of the imports, by rising id.
fn counts_of_imports(imports: &Imports, alloc: Global) -> Result<Items<(ExportId, u32)>, Memory>
    ensures { IfOk result (λ counts. counts ≡ of_map import_counts imports.now.entries) }
{
    let ids = imports.ids(alloc)?;
    let mut counts = Vec::new(alloc);
    for id in ids {
        let Some(import) = imports.get(id) else {
            continue;
        };
        match counts.push((ExportId(id), import.count)) {
            Ok(()) => {}
            Err(_) => return Err(Memory),
        }
    }
    Ok(Items::from_vec(counts))
}
