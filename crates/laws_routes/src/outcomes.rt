//! An outcome that becomes known is moves of the machine of routes, and the vat stays tied to it. No code runs here.

ghost use Rattle.laws_routes.specs.OutcomeLaws.{
  PromiseOpens,
  ValueFits,
  OutcomeIsKnown,
  HeldAreRouted,
  ApplicationIsTold,
  OutcomeSettles,
  OutcomesDrain,
  PromiseSettles,
};

/// A new promise opens; so do those that the value of an outcome needs, so that no capability leads to itself.
pub fn promises_open()
    ensures one { PromiseOpens }
    ensures value { ValueFits }
{}

/// An outcome becomes known, and its group settles.
pub fn outcomes_become_known()
    ensures { OutcomeIsKnown }
{}

/// The calls that waited for an outcome are routed, each to its own field.
pub fn held_calls_are_routed()
    ensures { HeldAreRouted }
{}

/// The application is told of its call's outcome.
pub fn applications_are_told()
    ensures { ApplicationIsTold }
{}

/// An outcome settles, from the value that it takes to the Resolves; so do those that arose, one after the other.
pub fn outcomes_settle()
    ensures one { OutcomeSettles }
    ensures all { OutcomesDrain }
{}

/// A promise settles, with its Resolves.
pub fn promises_settle()
    ensures { PromiseSettles }
{}
