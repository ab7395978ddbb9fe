//! The functions run no code: what each ensures is the law.

ghost use Rattle.laws_nodes.specs.Settling.{EachNodeStops, StopsWithin, Settling, CirclesNeverStop};
ghost use Rattle.laws_nodes.specs.Embargoes.{EmbargoesArePaired, Loopbacks};
ghost use Rattle.laws_nodes.specs.Sources.{EachHasOneSource};
ghost use Rattle.laws_nodes.specs.Questions.{EachEndsInTime};
ghost use Rattle.laws_nodes.specs.OwnCalls.{EachHasItsOwn};

/// No node of a vat leads back to itself, in any state to which the vat comes, and at any moment of a step. It is fixed
/// where each node leads once a promise is settled, an outcome becomes known, or what no place names goes.
pub fn nodes_settle()
    ensures stops { EachNodeStops }
    ensures within { StopsWithin }
    ensures settles { Settling }
{}

/// A promise that was fixed to a node that leads to it would lead nowhere for good: the refusal of such a `resolve` is
/// needed.
pub fn circles_never_stop()
    ensures { CirclesNeverStop }
{}

/// A reference and its embargo name one another, in each state to which a vat comes. At level 1, while the vat is up,
/// an embargo stands from the step that sends its Disembargo to the one in which that comes back. A Disembargo of the
/// peer goes back at once.
pub fn embargoes_pair()
    ensures paired { EmbargoesArePaired }
    ensures loopbacks { Loopbacks }
{}

/// Each outcome that a vat keeps and that is not known yet has one source from which it will come. That is a task, a
/// call that was sent on and has not returned, or a call that waits. No other outcome has one.
pub fn outcomes_have_sources()
    ensures { EachHasOneSource }
{}

/// A question whose Finish was sent and that is still there is one that the application has finished and that has not
/// returned; and between steps no question of a call that was sent on has returned.
pub fn questions_end()
    ensures { EachEndsInTime }
{}

/// In each state to which a vat comes, a call of the application that is not finished has no outcome and no question
/// but the one that the vat keeps of it. No outcome and no question is of a call that is still to come.
pub fn calls_have_their_own()
    ensures { EachHasItsOwn }
{}
