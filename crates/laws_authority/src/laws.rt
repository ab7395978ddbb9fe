//! The functions run no code: what each ensures is the law.

ghost use Rattle.laws_authority.specs.Authority.{AuthorityIsGiven, AuthorityIsKept, EachIsOfPeerOrOwn, AuthorityEnds, CallsAreAimed};
ghost use Rattle.laws_authority.specs.Once.{AllAtMostOnce};

/// In every run of one vat, whatever its peer sends: the peer may reach those objects alone that the application gave it, and
/// the bootstrap object after a Bootstrap. Each call of the peer's is delivered to an object that it was given.
pub fn authority_is_given()
    ensures { AuthorityIsGiven }
{}

/// In each step: a command lets the peer reach what it gives and no more, and a message nothing more, except for the bootstrap
/// object by a Bootstrap. A call of the peer's is delivered to what the peer could reach before the step, or is given in it.
pub fn authority_is_kept()
    ensures kept { AuthorityIsKept }
    ensures each { EachIsOfPeerOrOwn }
{}

/// A peer that gave all back reaches nothing, and no message has a call of its delivered.
pub fn authority_ends()
    ensures { AuthorityEnds }
{}

/// A Call that names an export or an answer which is not there is a fault.
pub fn calls_are_aimed()
    ensures { CallsAreAimed }
{}

/// In every run of one vat, whatever its peer sends: no call of the application ends twice, no task is delivered twice, and
/// none is answered twice.
pub fn all_at_most_once()
    ensures { AllAtMostOnce }
{}
