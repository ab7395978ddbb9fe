//! The objects that an application hosts, as far as it was not told that they are released.
ghost use Rattle.std.specs.Prelude.{◌≡◌, ◌≢◌, false, Some, IsTrue, IfSome, IfNone, OnOk, OnErr, true, is_some};
ghost use Rattle.std.specs.FinMap as map;
ghost use Rattle.rpc_uses.specs.Objects.{names_object};
ghost use Rattle.vat_host.specs.Hosting.{IsUnnamedAmong, AreNamedBut};
ghost use Rattle.vat_host.specs.Objects.{no_objects};

use rpc_msg::{Memory, ObjectId};
use std::alloc::Global;
use std::collections::BTreeMap;
use std::marker::Model;
use vat_core::Core;

/// Objects by their numbers: seen by contracts as a finite map.
#[derive(Drop)]
pub(crate) struct HostedObjects {
    by_number: BTreeMap<u64, ()>,
}

impl Model for HostedObjects {
    ghost use Rattle.std.specs.FinMap as map;
    ghost use Rattle.vat_host.specs.Objects.{Objects, objects_code};

    ghost Value = { Objects };

    ghost coded = { objects_code };

    ghost view = { λ a. map.from_entries a.by_number.entries };
}

impl HostedObjects {
    /// None. Takes no memory.
    pub(crate) fn new(alloc: Global) -> HostedObjects
        ensures { result ≡ no_objects }
    {
        HostedObjects {
            by_number: BTreeMap::new(alloc),
        }
    }

    /// How many there are.
    pub(crate) fn len(&self) -> usize
        ensures { result ≡ map.len self.now }
    {
        self.by_number.len()
    }

    pub(crate) fn has(&self, object: ObjectId) -> bool
        ensures { result ≡ is_some (map.get self.now object.0) }
    {
        self.by_number.get(&object.0).is_some()
    }

    /// Puts one in, which may be there already. `Memory` leaves all as it was.
    pub(crate) fn put(&mut self, object: ObjectId) -> Result<(), Memory>
        ensures ok { OnOk result (self.new ≡ map.insert self.old object.0 tt) }
        ensures err { OnErr result (self.new ≡ self.old) }
    {
        self.by_number.insert(object.0, ())?;
        Ok(())
    }

    /// Takes one out. Takes no memory.
    pub(crate) fn take(&mut self, object: ObjectId)
        ensures { self.new ≡ map.remove self.old object.0 }
    {
        self.by_number.remove(&object.0);
    }

    /// The first one but `root` that no place of the core names, if there is one. Looks at each before it.
    pub(crate) fn first_unnamed(&self, core: &Core, root: Option<ObjectId>) -> Option<ObjectId>
        ensures some { IfSome result (λ object. IsUnnamedAmong core.now self.now root object) }
        ensures none { IfNone result (AreNamedBut core.now self.now root) }
    {
        for (number, _) in self.by_number.iter() {
            let object = ObjectId(*number);
            if is_unnamed(core, root, object) {
                return Some(object);
            }
        }
        None
    }
}

/// Whether it is not the root, and no place of the core names it.
pub(crate) fn is_unnamed(core: &Core, root: Option<ObjectId>, object: ObjectId) -> bool
    ensures yes { result ≡ true → (names_object core.now object ≡ false) × (root ≢ Some object) }
    ensures no { result ≡ false → root ≢ Some object → IsTrue (names_object core.now object) }
{
    root != Some(object) && !core.names_object(object)
}
