ghost use Rattle.std.specs.Prelude.{◌≡◌, OnOk, OnErr};
ghost use Rattle.std.specs.FinMap as map;

use crate::name::Name;
use rpc_msg::Memory;
use std::alloc::Global;
use std::collections::BTreeMap;
use std::marker::Model;

/// What names stand for: seen by contracts as the ids by name. In order, so that no choice of names makes a look-up long.
#[derive(Drop)]
pub(crate) struct Bound<Id> {
    ordered: BTreeMap<Name, Id>,
}

impl<Id> Model for Bound<Id> {
    ghost use Rattle.std.specs.Ordering.{nat_cmp};
    ghost use Rattle.std.specs.Cmp.Lexicographic.{slice_cmp};
    ghost use Rattle.std.specs.Coded.{coded_ℕ, coded_list};
    ghost use Rattle.std.specs.FinMap as map;

    ghost Value = { map.FinMap (slice_cmp nat_cmp) Id };

    ghost coded = { map.code (coded_list coded_ℕ) Id.code };

    ghost view = { λ a. map.from_entries a.ordered.entries };
}

impl<Id: Copy> Bound<Id> {
    /// No names. Takes no memory.
    pub(crate) fn new(alloc: Global) -> Self
        ensures { result ≡ map.empty }
    {
        Bound {
            ordered: BTreeMap::new(alloc),
        }
    }

    /// What the name stands for.
    pub(crate) fn get(&self, name: Name) -> Option<Id>
        ensures { result ≡ map.get self.now name }
    {
        self.ordered.get(&name).copied()
    }

    /// Lets the name stand for that id, and for no other. `Memory` if a growth was refused; nothing is changed then.
    pub(crate) fn bind(&mut self, name: Name, id: Id) -> Result<(), Memory>
    where
        Id: Drop,
        ensures ok { OnOk result (self.new ≡ map.insert self.old name id) }
        ensures err { OnErr result (self.new ≡ self.old) }
    {
        match self.ordered.insert(name, id) {
            Ok(_) => return Ok(()),
            Err(_) => return Err(Memory),
        }
    }
}
