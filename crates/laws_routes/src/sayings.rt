//! What the vats say of wires, by Resolves and Returns, is so in the machine of routes. No code runs here.

ghost use Rattle.laws_routes.specs.KnownLaws.{
  KnownAsAsked,
  KnownAsHeld,
  KnownAsImported,
  KnownAsKept,
  KnownAtEnds,
  SaidAsExported,
  SaidAsClosed,
  SaidAsGiven,
  SaidAsLowered,
  SaidAsTaken,
  SaidIsSent,
  SaidOfFewer,
};
ghost use Rattle.laws_routes.specs.SayingLaws.{AdvanceIsFollowed, DescriptorSaysSo, ExceptionSaysSo, KnownStays, ResolveBecomesKnown, ResultsSaySo, ReturnBecomesKnown, SayingsStay};

/// What is known of a wire, and what is said of it on the way, stays so, whatever settles afterwards.
pub fn sayings_stay()
    ensures known { KnownStays }
    ensures said { SayingsStay }
{}

/// A reference may rely on what is known of the wire to which its head settles, which the vats that are tied keep so:
/// whichever way it advances by that, the machine of routes can follow.
pub fn advances_are_followed()
    ensures { AdvanceIsFollowed }
{}

/// What a received Resolve said is known of its import from then on, and what a Return said of each path of its question; and
/// it is so.
pub fn what_is_said_becomes_known()
    ensures resolve { ResolveBecomesKnown }
    ensures results { ReturnBecomesKnown }
{}

/// A descriptor that is made of where a node settles says of that node what is so.
pub fn descriptors_say_so()
    ensures { DescriptorSaysSo }
{}

/// What a known outcome says in a Return is so at each path: its results, with the descriptors of their capabilities, and its
/// exception.
pub fn returns_say_so()
    ensures results { ResultsSaySo }
    ensures exception { ExceptionSaysSo }
{}

/// What is known of wires stays so at the end of a step, as a question is asked, as an outcome or a promise gets an identity, and
/// as a new import comes.
pub fn what_is_known_stays()
    ensures ends { KnownAtEnds }
    ensures asked { KnownAsAsked }
    ensures kept { KnownAsKept }
    ensures held { KnownAsHeld }
    ensures imported { KnownAsImported }
{}

/// What is said on the way stays so as one more message is sent, and as its receiver lets imports and questions go or
/// takes descriptors. It stays so as exports are added or go, as ids and identities are given, and as an answer closes.
pub fn what_is_said_stays()
    ensures sent { SaidIsSent }
    ensures fewer { SaidOfFewer }
    ensures taken { SaidAsTaken }
    ensures exported { SaidAsExported }
    ensures given { SaidAsGiven }
    ensures lowered { SaidAsLowered }
    ensures closed { SaidAsClosed }
{}
