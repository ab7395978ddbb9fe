ghost use Rattle.std.specs.Prelude.{◌≡◌, ℕ, cond, nat_eq, None, Some, OnOk};
ghost use Rattle.std.specs.FinMap as map;
ghost use Rattle.core_store.specs.Holding.{state_of};
ghost use Rattle.core_step_messages.specs.Foreseen.{kind_of, clash_with};

use core_step_checks::same_kind;
use core_store::Store;
use rpc_machine::SenderKind;
use rpc_msg::{ExportId, Memory};
use std::alloc::Global;
use std::collections::BTreeMap;

/// As what each export was given by descriptors of one message.
#[derive(Drop)]
pub(crate) struct Kinds {
    pub(crate) by_id: BTreeMap<u32, SenderKind>,
}

impl Kinds {
    /// Takes no memory.
    pub(crate) fn new(alloc: Global) -> Self
        ensures { (e : ℕ) → kind_of result e ≡ None }
    {
        Kinds {
            by_id: BTreeMap::new(alloc),
        }
    }

    fn of(&self, id: ExportId) -> Option<SenderKind>
        ensures { result ≡ kind_of self.now id.0 }
    {
        self.by_id.get(&id.0).copied()
    }

    pub(crate) fn set(&mut self, id: ExportId, kind: SenderKind) -> Result<(), Memory>
        ensures { OnOk result ((e : ℕ) → kind_of self.new e ≡ cond (nat_eq e id.0) (Some kind) (kind_of self.old e)) }
    {
        self.by_id.insert(id.0, kind)?;
        Ok(())
    }

    /// Whether an export may not be given as that kind: by the import, or if there is none, by the descriptors before.
    pub(crate) fn clash(&self, store: &Store, kind: SenderKind, id: ExportId) -> bool
        ensures { result ≡ clash_with kind (map.get (state_of store.now).imports id.0) (kind_of self.now id.0) }
    {
        if let Some(import) = store.imports.get(id.0) {
            return !same_kind(kind, import.kind) || import.resolution.is_some();
        }
        match self.of(id) {
            Some(before) => !same_kind(kind, before),
            None => false,
        }
    }
}
