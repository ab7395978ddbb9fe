//! What is proved of the definitions of the verdict. These functions run no code: what they ensure is the law.

ghost use Rattle.rpc_check.specs.Laws.{SameForEveryId, VerdictIsFirst};

/// Counts that are the same for each id that they name are the same for every id.
pub fn same_for_every_id()
    ensures { SameForEveryId }
{}

/// A verdict is good only if no entry breaks a law; else it is what an entry breaks, before which none breaks any.
pub fn verdict_is_first()
    ensures { VerdictIsFirst }
{}
