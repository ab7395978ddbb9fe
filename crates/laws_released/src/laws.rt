//! The functions run no code: what each ensures is the law.

ghost use Rattle.laws_released.specs.Known.{StaysKnown, CountTells};
ghost use Rattle.laws_released.specs.Names.{DeliveriesAreNamed, NamesComeByHost, HostedIsNamed, NamedWithin};
ghost use Rattle.laws_released.specs.Released.{ReleasedStays, NoneIsMissed};

/// In each step, whatever is commanded or comes: a call is delivered to an object that a place named before the step.
pub fn deliveries_are_named()
    ensures { DeliveriesAreNamed }
{}

/// In each step, whatever is commanded or comes: an object that a place names after it was named before it, was hosted in it,
/// or is the bootstrap object after a Bootstrap. At each moment of the step it is so too.
pub fn names_come_by_host()
    ensures steps { NamesComeByHost }
    ensures hosted { HostedIsNamed }
    ensures within { NamedWithin }
{}

/// An object that no place names, and that is not the bootstrap object, stays so, and no call is delivered to it, until a Host
/// of it is done. An object that was named and is named no more was released in a step on the way, or the vat fell.
pub fn released_stays()
    ensures stays { ReleasedStays }
    ensures missed { NoneIsMissed }
{}

/// Who keeps a list with each object that a place names, and the bootstrap object, has a list of all of them after each step, if what
/// was hosted is added. If there are no more on it than these, a place names each of them but the bootstrap object. So who takes those
/// off that are released sees with no search that none is left.
pub fn objects_stay_known()
    ensures steps { StaysKnown }
    ensures count { CountTells }
{}
