ghost use Rattle.std.specs.Prelude.{◌≡◌, []};
ghost use Rattle.core_queries.specs.Peers.{names_import, names_question};
ghost use Rattle.core_store.specs.Holding.{state_of, IsSound};

use core_store::Store;
use rpc_msg::{ExportId, QuestionId};

/// Whether a place of the vat names what the peer exports by that id. Constant work. No call may be taken out to be routed.
pub fn names_import(store: &Store, id: ExportId) -> bool
    requires sound { IsSound store.now }
    requires none_taken { store.now.waits.taken ≡ [] }
    ensures { result ≡ names_import (state_of store.now) id }
{
    store.names.of_import(id) > 0
}

/// Whether a place of the vat names anything of the results of a question to the peer. Constant work. No call may be taken out
/// to be routed.
pub fn names_question(store: &Store, id: QuestionId) -> bool
    requires sound { IsSound store.now }
    requires none_taken { store.now.waits.taken ≡ [] }
    ensures { result ≡ names_question (state_of store.now) id }
{
    store.names.of_question(id) > 0
}
