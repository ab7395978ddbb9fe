ghost use Rattle.std.specs.Prelude.{◌≡◌, ◌≤◌, [], string_bytes, string_len, string_capacity, IfOk, IsTrue};
ghost use Rattle.core_step_routes.specs.Prepared.{reason_limit, IsPrepared};

use rpc_msg::{Descriptor, ExportId, Memory, RefId};
use std::alloc::Global;

/// What the routing of a call fills, made beforehand: its fields are open, and `IsPrepared` of the definitions says that
/// they are empty and have room.
#[derive(Drop)]
pub struct Lists {
    /// The numbers of its new references.
    pub refs: Vec<RefId>,
    /// The descriptors of its message.
    pub said: Vec<Descriptor>,
    /// The ids of the exports to which these add one.
    pub given: Vec<ExportId>,
    /// Why it failed.
    pub text: String,
}

impl Lists {
    /// Those of a call with so many capabilities, and with room for why it failed if that `may_fail`.
    pub fn new(alloc: Global, count: usize, may_fail: bool) -> Result<Self, Memory>
        ensures prepared { IfOk result (λ lists. IsPrepared count lists) }
        ensures text { IfOk result (λ lists. IsTrue may_fail → reason_limit ≤ string_capacity lists.text) }
    {
        let refs = Vec::with_capacity(alloc, count)?;
        let said = Vec::with_capacity(alloc, count)?;
        let given = Vec::with_capacity(alloc, count)?;
        let text = text_for(alloc, may_fail)?;
        Ok(Lists {
            refs,
            said,
            given,
            text,
        })
    }
}

// An empty text, with room for a reason if one is needed.
fn text_for(alloc: Global, wanted: bool) -> Result<String, Memory>
    ensures empty { IfOk result (λ text. (string_bytes text ≡ []) × (string_len text ≡ 0)) }
    ensures room { IfOk result (λ text. IsTrue wanted → reason_limit ≤ string_capacity text) }
{
    if !wanted {
        return Ok(String::new(alloc));
    }
    let text = String::with_capacity(alloc, 16)?;
    Ok(text)
}
