//! The functions run no code: what each ensures is the law.

ghost use Rattle.laws_wires.specs.SentWires.{SentIsRead};
ghost use Rattle.laws_wires.specs.StepWires.{BackIsLeft, OutIsLeft, WiresLive};
ghost use Rattle.laws_wires.specs.WireLaws.{LinksAreClosed, LinksAreFewer, LinksAreJoined, LinksAreMet, LinksAreSent, LinksAreSentBack, LinksLive, NewVatsMean};

/// Of two new vats all means what it should, whatever the history is.
pub fn wires_mean_at_first()
    ensures { NewVatsMean }
{}

/// What is on its way keeps meaning what it should, in a longer history, and as exports are added, or go that nothing
/// on the way names, and labels come. So it does as its receiver lets imports and questions go, as answers close, and
/// as more messages are sent.
pub fn wires_last()
    ensures longer { LinksLive }
    ensures met { LinksAreMet }
    ensures fewer { LinksAreFewer }
    ensures closed { LinksAreClosed }
    ensures sent { LinksAreSent }
    ensures sent_back { LinksAreSentBack }
    ensures joined { LinksAreJoined }
{}

/// The wires between two vats mean what they should in a longer history, and behind a step of one vat. What was on its
/// way before does, if exports that are named there are left as they were and answers that change may close. So does
/// what the vats know of each other, and what was sent, if it means what it should.
pub fn wires_are_left()
    ensures longer { WiresLive }
    ensures back { BackIsLeft }
    ensures out { OutIsLeft }
{}

/// A message that means what it should by the labels of its sender means so as its receiver will read it, if the imports
/// and questions that it names stand there for what they mean to the sender.
pub fn what_is_sent_is_read()
    ensures { SentIsRead }
{}
