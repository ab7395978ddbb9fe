//! The first act of each command and of each received message keeps what is so in the middle of a step. No code runs here.

ghost use Rattle.laws_routes.specs.Embargoes.{CommandsKeepEmbargoes, MessagesKeepEmbargoes, NewEmbargoesAreRight, RightEmbargoesAreOnly};
ghost use Rattle.laws_routes.specs.FirstActs.{AllCommandsFollow, OtherCommandsKeepIt, TiedEmbargoesAreNamed};
ghost use Rattle.laws_routes.specs.Received.{MessagesFollow, MessagesMayBeTaken};

/// A command that settles nothing keeps what is so in the middle of a step: a reference, a call, a question or a promise is made,
/// let go or advanced.
pub fn other_commands_keep_it()
    ensures { OtherCommandsKeepIt }
{}

/// No embargo of a vat that is tied is of a reference that has none.
pub fn embargoes_are_named()
    ensures { TiedEmbargoesAreNamed }
{}

/// A received message that is no fault may be taken, whatever it is, by a vat of level 1, and keeps what is so in the middle of a
/// step. Of messages that came back as not understood nothing is said.
pub fn messages_may_be_taken()
    ensures { MessagesMayBeTaken }
{}

/// What the laws of whole steps take as known of a command, whatever it is, and of a received message that is no fault, follows from
/// what is so between two steps; and it is so behind the whole step.
pub fn steps_may_be_done()
    ensures commands { AllCommandsFollow }
    ensures messages { MessagesFollow }
{}

/// Each embargo of a vat is the only one of its reference, and is of a node of that vat itself. It is so of a new vat.
/// Each command that is done keeps it, and each message that is taken, if exports are own nodes.
pub fn embargoes_are_right()
    ensures new { NewEmbargoesAreRight }
    ensures commands { CommandsKeepEmbargoes }
    ensures messages { MessagesKeepEmbargoes }
    ensures only { RightEmbargoesAreOnly }
{}
