//! The kinds in which exports were named first in a message.
ghost use Rattle.std.specs.Prelude.{◌≡◌, ◌∷◌, ◌++◌, List, [], Some, None, IfOk, OnOk, unwrap_or};
ghost use Rattle.std.specs.FinMap as map;
ghost use Rattle.rpc_msg.specs.declared.parts.Descriptor.{Descriptor};
ghost use Rattle.peer_kinds.specs.Kinds.{Standings, Tells, heard_descriptor, in_kind, kind_heard};
ghost use Rattle.peer_kinds.specs.Noted.{Follows};

use crate::standing::Standing;
use rpc_machine::SenderKind;
use rpc_msg::{Descriptor, ExportId, Memory};
use std::alloc::Global;
use std::collections::BTreeMap;
use std::marker::Model;

/// Kinds by export: seen by contracts as a finite map.
#[derive(Drop)]
pub(crate) struct Firsts {
    by_id: BTreeMap<u32, SenderKind>,
}

impl Model for Firsts {
    ghost use Rattle.std.specs.Ordering.{nat_cmp};
    ghost use Rattle.std.specs.Coded.{coded_ℕ};
    ghost use Rattle.std.specs.FinMap as map;
    ghost use Rattle.rpc_machine.specs.declared.entries.SenderKind.{SenderKind};
    ghost use Rattle.rpc_machine.specs.contracts.entries.SenderKind as kind;

    ghost Value = { map.FinMap nat_cmp SenderKind };

    ghost coded = { map.code coded_ℕ kind.the_row.coded };

    ghost view = { λ a. map.from_entries a.by_id.entries };
}

impl Firsts {
    /// None. Takes no memory.
    pub(crate) fn new(alloc: Global) -> Firsts
        ensures { result ≡ map.empty }
    {
        Firsts {
            by_id: BTreeMap::new(alloc),
        }
    }

    /// A descriptor as it is heard, behind those of its message that were heard before.
    pub(crate) fn hear<K: Fn(ExportId) -> Option<Standing>>(
        &mut self,
        descriptor: Descriptor,
        standing: &K,
    ) -> Result<Descriptor, Memory>
        requires { K.IsAlwaysCallable standing.now }
        ensures { (stands : Standings) (before after : List Descriptor)
            → Tells (K.post standing.now) stands → Follows stands self.old before
            → IfOk result (λ heard. (heard ≡ heard_descriptor stands (before ++ descriptor ∷ after) descriptor) × Follows stands self.new (before ++ descriptor ∷ [])) }
    {
        match descriptor {
            Descriptor::SenderHosted(export) => self.name(SenderKind::Hosted, export, standing),
            Descriptor::SenderPromise(export) => self.name(SenderKind::Promise, export, standing),
            _ => Ok(descriptor),
        }
    }

    // A name of that kind, as it is heard.
    fn name<K: Fn(ExportId) -> Option<Standing>>(
        &mut self,
        own: SenderKind,
        export: ExportId,
        standing: &K,
    ) -> Result<Descriptor, Memory>
        requires { K.IsAlwaysCallable standing.now }
        ensures { (stands : Standings) (before after : List Descriptor)
            → Tells (K.post standing.now) stands → Follows stands self.old before
            → IfOk result (λ heard. (heard ≡ heard_descriptor stands (before ++ in_kind own export ∷ after) (in_kind own export)) × Follows stands self.new (before ++ in_kind own export ∷ [])) }
    {
        let there = standing(export);
        self.name_by(own, export, there)
    }

    fn name_by(
        &mut self,
        own: SenderKind,
        export: ExportId,
        there: Option<Standing>,
    ) -> Result<Descriptor, Memory>
        ensures { (stands : Standings) (before after : List Descriptor)
            → there ≡ stands export → Follows stands self.old before
            → IfOk result (λ heard. (heard ≡ heard_descriptor stands (before ++ in_kind own export ∷ after) (in_kind own export)) × Follows stands self.new (before ++ in_kind own export ∷ [])) }
    {
        match there {
            Some(there) => Ok(in_kind(kind_there(there, own), export)),
            None => self.first(own, export),
        }
    }

    // The name of an export that the vat does not have, in the kind in which it was named first.
    fn first(&mut self, own: SenderKind, export: ExportId) -> Result<Descriptor, Memory>
        ensures kind { IfOk result (λ heard. heard ≡ in_kind (unwrap_or (map.get self.old export.0) own) export) }
        ensures noted { OnOk result (self.new ≡ map.insert self.old export.0 (unwrap_or (map.get self.old export.0) own)) }
    {
        if let Some(kind) = self.get(export) {
            return Ok(in_kind(kind, export));
        }
        self.put(export, own)?;
        Ok(in_kind(own, export))
    }

    fn put(&mut self, export: ExportId, kind: SenderKind) -> Result<(), Memory>
        ensures { OnOk result (self.new ≡ map.insert self.old export.0 kind) }
    {
        self.by_id.insert(export.0, kind)?;
        Ok(())
    }

    fn get(&self, export: ExportId) -> Option<SenderKind>
        ensures { result ≡ map.get self.now export.0 }
    {
        self.by_id.get(&export.0).copied()
    }
}

// The kind in which a name of an import is heard.
fn kind_there(there: Standing, own: SenderKind) -> SenderKind
    ensures { result ≡ kind_heard (Some there) None own }
{
    match there {
        Standing::Hosted => SenderKind::Hosted,
        Standing::Promise => SenderKind::Promise,
        Standing::Resolved => own,
    }
}

// The name of an export in that kind.
fn in_kind(kind: SenderKind, export: ExportId) -> Descriptor
    ensures { result ≡ in_kind kind export }
{
    match kind {
        SenderKind::Hosted => Descriptor::SenderHosted(export),
        SenderKind::Promise => Descriptor::SenderPromise(export),
    }
}
