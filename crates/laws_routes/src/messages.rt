//! What the vats say to one another beside calls is no move of the machine of routes. No code runs here.

ghost use Rattle.laws_routes.specs.MessageLaws.{DescriptorsAreMade, DescriptorsAreTaken, ResolvesAreSent, ReturnIsSent, SilentComes, SilentGoes};

/// A message that is no Call, Bootstrap or Disembargo is sent, if what it says is so, or is taken from the link, and the vats
/// stay tied.
pub fn silent_is_no_move()
    ensures goes { SilentGoes }
    ensures comes { SilentComes }
{}

/// Descriptors are made, and what is aimed at an export or names one still finds it.
pub fn descriptors_are_made()
    ensures { DescriptorsAreMade }
{}

/// Descriptors are taken that are coming: each new import stands for what the other vat exports under its id.
pub fn descriptors_are_taken()
    ensures { DescriptorsAreTaken }
{}

/// Resolves are sent, one after the other, and the machine of routes does not move. What they say is so.
pub fn resolves_are_sent()
    ensures { ResolvesAreSent }
{}

/// A Return is sent for an answer whose Finish has not come, and the machine of routes does not move. What it says is so.
pub fn returns_are_sent()
    ensures { ReturnIsSent }
{}
