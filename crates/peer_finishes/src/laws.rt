//! What is proved of held Finishes. The functions run no code: what they ensure are the theorems.
ghost use Rattle.peer_finishes.specs.Laws.{GoOnce, StandsAside};

/// While Finishes go at once, each message goes as the vat says it, and what comes tells the peer nothing.
pub fn stands_aside()
    ensures { StandsAside }
{}

/// All but Finishes goes as the vat says it, in its place. Each Finish goes once, or is held back, or is of a question that came back
/// Unimplemented. One that goes behind an envelope goes behind the Return of its question; and if Finishes wait, none goes that the
/// vat says of a question which is open.
pub fn finishes_go_once()
    ensures { GoOnce }
{}
