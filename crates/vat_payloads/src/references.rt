ghost use Rattle.std.specs.Prelude.{◌≡◌};
ghost use Rattle.rpc_msg.specs.Payloads.{tree_of};
ghost use Rattle.rpc_msg.specs.Walking.{capability_at};
ghost use Rattle.vat_payloads.specs.Contents.{ref_of};

use rpc_msg::{CapAt, Op, Payload, RefId};

/// The reference of the capability at a path of a payload, of those that came with it: `refs` of its delivery or ended
/// call. None if something else stands there, or nothing.
pub fn reference_at(payload: &Payload, refs: &[RefId], path: &[Op]) -> Option<RefId>
    ensures { result ≡ ref_of (capability_at (tree_of payload.now) path.now) refs.now }
{
    let CapAt::Cap(index) = payload.cap_at(path) else {
        return None;
    };
    let reference = refs.get(index as usize)?;
    Some(*reference)
}
