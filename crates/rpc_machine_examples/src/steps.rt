//! Single steps of a core, and what its checks find.

ghost use Rattle.rpc_machine_examples.specs.CheckedMessages.{OfChecks};
ghost use Rattle.rpc_machine_examples.specs.Circles.{IsUntangled};
ghost use Rattle.rpc_machine_examples.specs.LevelZero.{IsLevelZero};
ghost use Rattle.rpc_machine_examples.specs.ReceivedSteps.{OfMessages};
ghost use Rattle.rpc_machine_examples.specs.Shortening.{IsShortened};
ghost use Rattle.rpc_machine_examples.specs.SingleSteps.{OfCommands};

/// A promise with two held calls is rejected; a reference turns back; a Return releases by its flag; a question is
/// finished.
pub fn of_commands()
    ensures { OfCommands }
{}

/// The capability of a Resolve whose promise is gone is released; an embargo is lifted; what a flag spares.
pub fn of_messages()
    ensures { OfMessages }
{}

/// What the checks of messages find, each fault except lack of room, and some refusals of commands.
pub fn of_checks()
    ensures { OfChecks }
{}

/// A result that leads to itself is replaced by an open promise.
pub fn untangled()
    ensures { IsUntangled }
{}

/// A level 0 vat reads descriptors as none, and its Finishes take back what the Returns gave.
pub fn of_level_zero()
    ensures { IsLevelZero }
{}

/// A reference switches to another import; breaks, as its promise was rejected; or turns back to what an own answer gave,
/// and a call waits until the Disembargo has come back.
pub fn of_shortening()
    ensures { IsShortened }
{}
