ghost use Rattle.std.specs.Prelude.{◌≡◌, []};
ghost use Rattle.rpc_uses.specs.Objects.{names_object, named_objects};
ghost use Rattle.core_store.specs.Holding.{state_of, IsSound};

use core_store::Store;
use rpc_msg::ObjectId;

/// Whether a place of the vat names the object of its application. Constant work. No call may be taken out to be routed.
pub fn names_object(store: &Store, object: ObjectId) -> bool
    requires sound { IsSound store.now }
    requires none_taken { store.now.waits.taken ≡ [] }
    ensures { result ≡ names_object (state_of store.now) object }
{
    store.names.of_object(object) > 0
}

/// How many objects of its application are named, each counted once. Constant work. No call may be taken out to be routed.
pub fn named_objects(store: &Store) -> usize
    requires sound { IsSound store.now }
    requires none_taken { store.now.waits.taken ≡ [] }
    ensures { result ≡ named_objects (state_of store.now) }
{
    store.names.objects()
}

/// Takes out an object that lost its last name, perhaps, since it was asked last. It may be named again, and some may be
/// missing. What the store holds stays as it is. Constant work.
#[inline(always)]
pub fn take_lost_object(store: &mut Store) -> Option<ObjectId>
    ensures { store.new ≡ store.old }
{
    store.names.take_lost_object()
}
