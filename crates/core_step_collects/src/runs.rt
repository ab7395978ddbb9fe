ghost use Rattle.std.specs.Prelude.{◌≡◌, ◌<◌, ◌+◌, ◌==◌, ◌&&◌, [], length, get_or, nat_lt};
ghost use Rattle.std.specs.List.{list_all};
ghost use Rattle.std.specs.List.Sorted.{IsSorted};
ghost use Rattle.std.specs.Ordering.{nat_cmp};
ghost use Rattle.rpc_machine.specs.Flags.{is_spared};
ghost use Rattle.core_store.specs.Holding.{state_of, IsSound};

use crate::flags::may_lose;
use core_store::Store;
use rpc_msg::ExportId;

/// Up to so many ids are compared with one another, which takes less than a copy of them.
pub(crate) const FEW: usize = 64;

/// Up to so many ids, which are all that a message in bytes can have, are copied and sorted. More are compared with one
/// another, since the copy stands on the stack.
pub(crate) const MANY: usize = 4096;

/// Whether all of these ids may be given back. They are sorted, and each is looked at once.
pub(crate) fn sorted_spared(store: &Store, ids: &mut [u32]) -> bool
    requires sound { IsSound store.now }
    requires none_taken { store.now.waits.taken ≡ [] }
    ensures { result ≡ list_all (is_spared (state_of store.now) ids.old) ids.old }
{
    ids.sort_unstable();
    runs_spared(store, ids)
}

fn runs_spared(store: &Store, ids: &[u32]) -> bool
    requires sound { IsSound store.now }
    requires none_taken { store.now.waits.taken ≡ [] }
    requires sorted { IsSorted nat_cmp ids.now }
    ensures { result ≡ list_all (is_spared (state_of store.now) ids.now) ids.now }
{
    let mut start = 0;
    for at in 0..ids.len() {
        if goes_on(ids, at) {
            continue;
        }
        if !may_lose(store, ExportId(ids[at]), at + 1 - start) {
            return false;
        }
        start = at + 1;
    }
    true
}

// Whether the next place has the same id.
fn goes_on(ids: &[u32], place: usize) -> bool
    requires { place < length ids.now }
    ensures { result ≡ nat_lt (place + 1) (length ids.now) && (get_or ids.now (place + 1) 0 == get_or ids.now place 0) }
{
    place + 1 < ids.len() && ids[place + 1] == ids[place]
}
