//! What is proved of broken names. The functions run no code: what they ensure are the theorems.
ghost use Rattle.peer_broken.specs.Laws.{CountsOnce, StandsAside};

/// A message that names no broken promise is handed on as it came, nothing is owed for it, and nothing is given back. No
/// message that is handed on names one.
pub fn stands_aside()
    ensures { StandsAside }
{}

/// Each count that a peer gave by a name which the vat does not hear of is given back once, by a Release or by a flag.
/// Of each export, what a message gave and what was owed before is what the vat hears, what is owed then and what is
/// given back.
pub fn counts_once()
    ensures { CountsOnce }
{}
