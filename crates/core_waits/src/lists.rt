ghost use Rattle.std.specs.Prelude.{◌≡◌, ◌≢◌, ◌≤◌, ◌<◌, ◌+◌, ◌++◌, ◌∷◌, [], length, Err, IsOk, IfOk, OnOk, OnErr};
ghost use Rattle.std.specs.FinMap as map;
ghost use Rattle.finite_maps.specs.Tally.{tally};
ghost use Rattle.core_waits.specs.Waiting.{calls_at};
ghost use Rattle.core_waits.specs.Owned.{IsListed, IsPlace};

use rpc_machine::HeldCall;
use vat_tables::{HeldPool, ListKey, POOL_LIMIT, TableFault};

/// Puts a call behind those of a list, or if there is none yet, starts one with it, and says which list that is. A call
/// that is refused is dropped, and the lists stay as they are.
pub(crate) fn put(
    pool: &mut HeldPool<HeldCall>,
    list: Option<ListKey>,
    call: HeldCall,
) -> Result<ListKey, TableFault>
    requires { IsListed pool.old.lists list }
    ensures place { IfOk result (λ key. IsPlace pool.old.lists list key.0) }
    ensures ok { IfOk result (λ key. pool.new.lists ≡ map.insert pool.old.lists key.0 (calls_at pool.old.lists list ++ call ∷ [])) }
    ensures at_limit { tally length pool.old.lists ≡ POOL_LIMIT → result ≡ Err TableFault.Full }
    ensures full { result ≡ Err TableFault.Full → tally length pool.old.lists ≡ POOL_LIMIT }
    ensures had_room { 0 < pool.old.room → tally length pool.old.lists ≢ POOL_LIMIT → IsOk result }
    ensures room { pool.old.room ≤ pool.new.room + 1 }
    ensures keeps_room { OnErr result (pool.old.room ≤ pool.new.room) }
    ensures same { OnErr result (pool.new.lists ≡ pool.old.lists) }
{
    let Some(list) = list else {
        return match pool.start(call) {
            Ok(key) => Ok(key),
            Err((fault, _)) => Err(fault),
        };
    };
    match pool.push(list, call) {
        Ok(()) => Ok(list),
        Err((fault, _)) => Err(fault),
    }
}
