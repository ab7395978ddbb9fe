//! Whole steps of a vat are moves of the machine of routes, and leave the two vats tied. No code runs here.

ghost use Rattle.laws_routes.specs.ChainLaws.{DeliveredInOrder, VatsStayTied};
ghost use Rattle.laws_routes.specs.PairLaws.{StartIsTied, StepIsBehind, TiedIsInOrder, TurnIsTied};
ghost use Rattle.laws_routes.specs.StepLaws.{ActsAreMoves, CommandsAreMoves, EchoesAreMoves, MessagesAreMoves, TakesAreMoves};

/// What a command does first.
pub fn acts_are_moves()
    ensures { ActsAreMoves }
{}

/// What a received message does first: one that is understood, and one that came back.
pub fn takes_are_moves()
    ensures understood { TakesAreMoves }
    ensures echoed { EchoesAreMoves }
{}

/// A whole step: a command that is done, or a message that is taken, with what arises, and what goes at its end.
pub fn steps_are_moves()
    ensures command { CommandsAreMoves }
    ensures message { MessagesAreMoves }
{}

/// Two new vats are tied to a machine of routes at its start, what a step leaves is before the next one, and two vats are tied
/// from whichever they are seen.
pub fn vats_are_tied()
    ensures start { StartIsTied }
    ensures step { StepIsBehind }
    ensures turn { TurnIsTied }
{}

/// Of two vats that are tied, the calls delivered of a reference are a beginning of those made through it, in order, each once,
/// all at one object.
pub fn deliveries_are_in_order()
    ensures { TiedIsInOrder }
{}

/// Vats that are tied stay so over any steps, and over such steps from the start calls are delivered in order.
pub fn steps_keep_order()
    ensures stay { VatsStayTied }
    ensures order { DeliveredInOrder }
{}
