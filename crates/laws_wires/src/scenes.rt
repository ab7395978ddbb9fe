//! The functions run no code: what each ensures is the law.

ghost use Rattle.laws_wires.specs.BackHeld.{CommandsHoldBack, MessagesHoldBack, RolesAreKept};
ghost use Rattle.laws_wires.specs.SceneOut.{ActsAskSo, CommandsAskSo, CommandsMeetOut, MessagesAskSo, MessagesMeetOut};
ghost use Rattle.laws_wires.specs.SceneSessions.{ActsLeaveAnswers, CommandsLeaveSessions, FinishedAnswersWaitWhenReached, MessagesLeaveSessions};
ghost use Rattle.laws_wires.specs.SceneWires.{CommandsBringNone, CommandsKeepNamed, CommandsLeaveReturns, MessagesBringTheirs, MessagesKeepNamed, MessagesLeaveReturns, ReturnsAreMet};

use laws_acts::steps_are_acts;
use laws_meanings::each_act_keeps_meanings;
use laws_messages::mentions_stand;

/// What is named on the way between two vats is left as it was by a step of one. The exports that descriptors and
/// targets name, and those that the other vat imports, are there before and behind a command, and a message that is
/// taken. They mean what they did, if the exports do that the first act leaves.
pub fn named_are_kept()
    ensures commands { CommandsKeepNamed }
    ensures messages { MessagesKeepNamed }
{}

/// Behind a command, and behind a message that is taken, each question whose Return is on its way is there, of the same role; if
/// its Finish was sent, it stays so. So the way back is met as it was to be, if questions keep their labels.
pub fn returns_are_awaited()
    ensures commands { CommandsLeaveReturns }
    ensures messages { MessagesLeaveReturns }
    ensures met { ReturnsAreMet }
{
    steps_are_acts();
}

/// No import comes by a command; by a message come those that its descriptors give.
pub fn imports_are_brought()
    ensures commands { CommandsBringNone }
    ensures messages { MessagesBringTheirs }
{
    steps_are_acts();
}

/// What the first act of a command or of a message asks is of the call for which it is asked, and so is what each small
/// act asks. A question that is there behind it was there before the step, or what was sent asks it, and it is of that.
pub fn what_is_asked_is_of_calls()
    ensures commands { CommandsAskSo }
    ensures messages { MessagesAskSo }
    ensures acts { ActsAskSo }
{
    each_act_keeps_meanings();
}

/// Behind a command, and behind a message that is taken, a vat has no more imports and questions than what is on its
/// way to it may name. Each question is of what it was. The outcome of a relay is there while its question is, so these
/// keep their labels if outcomes and questions do.
pub fn the_way_back_is_held()
    ensures roles { RolesAreKept }
    ensures commands { CommandsHoldBack }
    ensures messages { MessagesHoldBack }
{
    returns_are_awaited();
    imports_are_brought();
}

/// The acts of a step leave each answer, of its outcome, or close it if it was finished. So behind a command, and
/// behind a message that is taken, each question id of the other vat stands for what it stood for, a Call or Bootstrap
/// that was taken for what it asks. Else nothing on the way names it any more, and it may close.
pub fn answers_are_left()
    ensures acts { ActsLeaveAnswers }
    ensures finished { FinishedAnswersWaitWhenReached }
    ensures commands { CommandsLeaveSessions }
    ensures messages { MessagesLeaveSessions }
{}

/// What a step sends means what it should as its receiver will read it, behind all that is on its way there. What it
/// names of the other vat stands at that moment. So an import means what the other vat exports as it, and a question is
/// what the other vat has it for, or will have. And what the vat knows of the other is so behind the step.
pub fn what_is_sent_is_met()
    ensures commands { CommandsMeetOut }
    ensures messages { MessagesMeetOut }
{
    mentions_stand();
}
