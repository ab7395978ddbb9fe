//! Each piece of a step of a vat is moves of the machine of routes, and the vat stays tied to it. No code runs here.

ghost use Rattle.laws_routes.specs.Laws.{
  NewRefBegins,
  CallIsRouted,
  OutcomeIsKept,
  ListIsRouted,
  PromiseIsFixed,
  CallHereIsMade,
  CallFarIsMade,
  CallComes,
  SwitchIsFollowed,
  TurnIsFollowed,
  DisembargoGoesBack,
  EchoLifts,
  GoneIsNoMove,
  KnownOutcomeStops,
};

/// A new reference with any head begins.
pub fn new_refs_begin()
    ensures { NewRefBegins }
{}

/// A call goes on from a point as the vat routes it: it is delivered, it waits, it is sent, or it ends. So do the calls of
/// a list, one after the other.
pub fn calls_are_routed()
    ensures one { CallIsRouted }
    ensures list { ListIsRouted }
{}

/// A call's outcome is kept.
pub fn outcomes_are_kept()
    ensures { OutcomeIsKept }
{}

/// A call is made through a reference with no embargo, to an own node or over a wire.
pub fn calls_are_made()
    ensures here { CallHereIsMade }
    ensures far { CallFarIsMade }
{}

/// A Call is received, and is to be routed.
pub fn calls_come()
    ensures { CallComes }
{}

/// A promise is fixed, and the calls that waited for it are routed.
pub fn promises_are_fixed()
    ensures { PromiseIsFixed }
{}

/// A reference takes a shorter path: it switches, or turns back under an embargo.
pub fn references_advance()
    ensures switched { SwitchIsFollowed }
    ensures embargoed { TurnIsFollowed }
{}

/// A Disembargo goes back, and an echo lifts its embargo.
pub fn embargoes_end()
    ensures back { DisembargoGoesBack }
    ensures lifted { EchoLifts }
{}

/// What no place names goes.
pub fn gone_is_no_move()
    ensures { GoneIsNoMove }
{}

/// As an outcome becomes known, its fields stop where their nodes settle.
pub fn known_outcomes_stop()
    ensures { KnownOutcomeStops }
{}
