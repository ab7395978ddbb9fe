//! What ends, and what is let go, is no move of the machine of routes. No code runs here.

ghost use Rattle.laws_routes.specs.QuietLaws.{ClosingReturnIsSent, FinishIsNoMove, FlagIsNoMove, ReleaseIsNoMove, SweepsAreNoMove};

/// At the end of a step what no place names goes, questions are finished, and imports are released.
pub fn ends_are_no_move()
    ensures { SweepsAreNoMove }
{}

/// A flag is obeyed, or a Release is taken: the counts of exports fall.
pub fn exports_are_lowered()
    ensures flag { FlagIsNoMove }
    ensures release { ReleaseIsNoMove }
{}

/// An answer closes: its Return is sent after its Finish has come, or its Finish is taken.
pub fn answers_close()
    ensures sent { ClosingReturnIsSent }
    ensures taken { FinishIsNoMove }
{}
