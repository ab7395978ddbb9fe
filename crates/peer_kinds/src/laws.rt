//! What is proved of kinds. The functions run no code: what they ensure are the theorems.
ghost use Rattle.peer_kinds.specs.Laws.{CountsOnce, HearsAlike, StandsAside};

/// An envelope whose names are each of the kind of the first one, and which resolves no object, is heard as it came.
pub fn stands_aside()
    ensures { StandsAside }
{}

/// What is heard of any envelope has names each of the kind of the first one, and resolves no object.
pub fn hears_alike()
    ensures { HearsAlike }
{}

/// Of each export, what an envelope gave is what the vat hears that it gave, or it is given back, as often.
pub fn counts_once()
    ensures { CountsOnce }
{}
