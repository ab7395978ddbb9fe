//! Each message that is taken is moves of the machine of routes. No code runs here.

ghost use Rattle.laws_routes.specs.TakingLaws.{
  BootstrapComes,
  BootstrapIsTaken,
  CallIsTaken,
  DisembargoMeetsWire,
  ResolveIsTaken,
  ReturnIsTaken,
};

/// A Bootstrap is received, and is answered.
pub fn bootstraps_are_taken()
    ensures opens { BootstrapComes }
    ensures answered { BootstrapIsTaken }
{}

/// A Call is taken: its descriptors, its answer, and then it is routed.
pub fn calls_are_taken()
    ensures { CallIsTaken }
{}

/// A Return is taken: its flag is obeyed, what it says is kept, and its caller is told.
pub fn returns_are_taken()
    ensures { ReturnIsTaken }
{}

/// A Resolve is taken.
pub fn resolves_are_taken()
    ensures { ResolveIsTaken }
{}

/// A Disembargo that is to go back is aimed at a node that settles to a wire.
pub fn disembargos_meet_wires()
    ensures { DisembargoMeetsWire }
{}
