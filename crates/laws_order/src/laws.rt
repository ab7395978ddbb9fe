//! No code runs here: what each function ensures is a law.

ghost use Rattle.laws_order.specs.Laws.{
  OfEveryMachine,
  AlwaysInOrder,
  HoldsAtStart,
  EachEventKeepsIt,
  GivesOrder,
  DisembargoMeetsExit,
  EchoMeetsEmbargo,
};
ghost use Rattle.laws_order.specs.Moves.{EachMoveKeepsIt};

/// After every list of allowed events, for each reference: the calls delivered are a beginning of the calls made
/// through it, in order, each once. All are delivered at the one object at which its route ends. They are all of them
/// if its route is good (it ends at an object or an open stop) and none is pending.
///
/// Nodes, groups and references are of any types, with any decisions of equality.
pub fn in_order<N, G, R>()
    ensures { OfEveryMachine N G R AlwaysInOrder }
{}

/// The invariant behind `in_order`, for a crate that runs beside the machine: it holds at the start, each allowed event
/// keeps it, and it gives the promise. A disembargo that is received belongs to the embargo of its reference and meets
/// an exit. An echo that is received meets that embargo, and was sent to where the head stops.
pub fn keeps_order<N, G, R>()
    ensures start { OfEveryMachine N G R HoldsAtStart }
    ensures kept { OfEveryMachine N G R EachEventKeepsIt }
    ensures order { OfEveryMachine N G R GivesOrder }
    ensures disembargo { OfEveryMachine N G R DisembargoMeetsExit }
    ensures echo { OfEveryMachine N G R EchoMeetsEmbargo }
{}

/// So does each small step of `Move`, while calls are yet to be routed.
pub fn moves_keep_order<N, G, R>()
    ensures { OfEveryMachine N G R EachMoveKeepsIt }
{}
