//! The functions run no code: what each ensures is the law.

ghost use Rattle.rpc_uses.specs.Objects.{CountsThoseNamed, AllAreNamed};

/// The objects that `named_objects` counts are those that a place names. So who knows each object that is named, and no more
/// objects than are named, knows none that is not named: no search is needed to see it.
pub fn objects_are_named_by_number<X>()
    ensures those { CountsThoseNamed }
    ensures all { AllAreNamed X }
{}
