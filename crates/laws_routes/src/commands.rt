//! Each command is moves of the machine of routes. No code runs here.

ghost use Rattle.laws_routes.specs.MakingLaws.{BootstrapIsAsked, CallIsMade, DropIsNoMove, FinishedCallIsNoMove, PromiseIsMade};

/// A call is made, through any reference.
pub fn each_call_is_made()
    ensures { CallIsMade }
{}

/// A reference is dropped, or a call is finished.
pub fn lettings_go_are_no_move()
    ensures dropped { DropIsNoMove }
    ensures finished { FinishedCallIsNoMove }
{}

/// A promise is made.
pub fn promises_are_made()
    ensures { PromiseIsMade }
{}

/// The other vat is asked for its bootstrap object.
pub fn bootstraps_are_asked()
    ensures { BootstrapIsAsked }
{}
