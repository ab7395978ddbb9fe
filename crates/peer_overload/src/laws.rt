//! What is proved beside the contracts. The functions run no code: what they ensure are the theorems.
ghost use Rattle.peer_overload.specs.Laws.{CountsOnce, StandsAside};

/// If no question was refused and the vat has room, the vat hears each envelope as it came, and nothing changes.
pub fn stands_aside()
    ensures { StandsAside }
{}

/// Each count that a peer gave is heard or given back: of each of its exports, what a message gave is what the vat hears that it
/// gave and what the flag of the Return that refuses it gives back. A refusal gives nothing.
pub fn counts_once()
    ensures { CountsOnce }
{}
