//! What is proved of the definitions of the history. The function runs no code: what it ensures is the law.

ghost use Rattle.rpc_journal.specs.OneCall.{OneCallIsRead};

/// The journal of one bootstrapped call reads as it must: the call was made and delivered once, and both references to
/// the bootstrap object stand for it.
pub fn one_call_is_read()
    ensures { OneCallIsRead }
{}
