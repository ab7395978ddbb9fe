//! The names that are owed to the peer.
ghost use Rattle.std.specs.Prelude.{◌≡◌, [], IfOk, OnOk, OnErr, unwrap_or};
ghost use Rattle.std.specs.FinMap as map;

use rpc_msg::{ExportId, Items, Memory, QuestionId};
use std::alloc::Global;
use std::collections::BTreeMap;
use std::marker::Model;

/// Names by ids of answers or of questions: seen by contracts as a finite map.
#[derive(Drop)]
pub(crate) struct Owed {
    by_id: BTreeMap<u32, Items<ExportId>>,
}

impl Model for Owed {
    ghost use Rattle.std.specs.Prelude.{List};
    ghost use Rattle.std.specs.Ordering.{nat_cmp};
    ghost use Rattle.std.specs.Coded.{coded_ℕ, coded_list};
    ghost use Rattle.std.specs.FinMap as map;
    ghost use Rattle.rpc_msg.specs.declared.ids.ExportId.{ExportId};
    ghost use Rattle.rpc_msg.specs.contracts.ids.ExportId as export;

    ghost Value = { map.FinMap nat_cmp (List ExportId) };

    ghost coded = { map.code coded_ℕ (coded_list export.the_row.coded) };

    ghost view = { λ a. map.from_entries a.by_id.entries };
}

impl Owed {
    /// Nothing is owed. Takes no memory.
    pub(crate) fn new(alloc: Global) -> Owed
        ensures { result ≡ map.empty }
    {
        Owed {
            by_id: BTreeMap::new(alloc),
        }
    }

    /// Names are owed under an id from now on: what was owed under it before. `Memory` leaves all as it was.
    pub(crate) fn put(
        &mut self,
        alloc: Global,
        id: QuestionId,
        names: Items<ExportId>,
    ) -> Result<Items<ExportId>, Memory>
        ensures was { IfOk result (λ was. was ≡ unwrap_or (map.get self.old id.0) []) }
        ensures ok { OnOk result (self.new ≡ map.insert self.old id.0 names) }
        ensures err { OnErr result (self.new ≡ self.old) }
    {
        match self.by_id.insert(id.0, names) {
            Ok(was) => Ok(some_items(alloc, was)),
            Err(_) => Err(Memory),
        }
    }

    /// What is owed under an id, and no longer. Takes no memory.
    pub(crate) fn take(&mut self, alloc: Global, id: QuestionId) -> Items<ExportId>
        ensures was { result ≡ unwrap_or (map.get self.old id.0) [] }
        ensures gone { self.new ≡ map.remove self.old id.0 }
    {
        let was = self.by_id.remove(&id.0);
        some_items(alloc, was)
    }
}

fn some_items(alloc: Global, items: Option<Items<ExportId>>) -> Items<ExportId>
    ensures { result ≡ unwrap_or items [] }
{
    match items {
        Some(items) => items,
        None => Items::new(alloc),
    }
}
