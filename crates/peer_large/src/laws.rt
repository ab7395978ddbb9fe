//! What is proved beside the contracts. The functions run no code: what they ensure are the theorems.
ghost use Rattle.peer_large.specs.Laws.{CallsFail, ContentsAreSmall, StandsAside};

/// What breaks no limit comes to what the adapter below says. So does each message of the vat, while no Return has broken a limit.
pub fn stands_aside()
    ensures { StandsAside }
{}

/// A Call that breaks a limit is told so under its own question, and the vat hears nothing.
pub fn calls_fail()
    ensures { CallsFail }
{}

/// The contents that a frame brings are no larger than a message may be, however its pointers lead to one place many times.
pub fn contents_are_small()
    ensures { ContentsAreSmall }
{}
