//! The functions run no code: what each ensures is the law.

ghost use Rattle.laws_wires.specs.FirstSent.{CommandsSaySo, MessagesSaySo};
ghost use Rattle.laws_wires.specs.Sent.{ActsSaySo, StepsSaySo};
ghost use Rattle.laws_wires.specs.SentLinks.{LinksSaySo};
ghost use Rattle.laws_wires.specs.StepsSent.{CommandsSend, MessagesSend};

use laws_acts::steps_are_small_acts;
use laws_meanings::{
    each_act_keeps_meanings, first_acts_of_commands_mean, first_acts_of_messages_mean,
};

/// What a small act of a step sends means what it should, by the labels of its vat at that moment; and what was sent before
/// means it still.
pub fn acts_send_meanings()
    ensures { ActsSaySo }
{}

/// If behind the first act of a step all that was sent means what it should, by the labels of its vat, it is so at the end
/// of the step, with all that the step sends. Exports stay, and what they mean.
pub fn steps_send_meanings()
    ensures { StepsSaySo }
{
    each_act_keeps_meanings();
}

/// What the first act of a command sends means what it should, if the history has the command's entry; and so does what
/// the first act of a message sends. What was settled then means something.
pub fn first_acts_send_meanings()
    ensures commands { CommandsSaySo }
    ensures messages { MessagesSaySo }
{}

/// What a whole step of a command sends means what it should, by the labels by which nodes mean what they should at its end.
/// They are those of before, if something was there: so exports stay, and mean what they did.
pub fn commands_send_meanings()
    ensures { CommandsSend }
{
    steps_are_small_acts();
    first_acts_of_commands_mean();
    first_acts_send_meanings();
    steps_send_meanings();
}

/// What a whole step of a received message sends means what it should, by the labels by which nodes mean what they should at
/// its end, if each outcome for which the peer waits is that of its question.
pub fn messages_send_meanings()
    ensures { MessagesSend }
{
    steps_are_small_acts();
    first_acts_of_messages_mean();
    first_acts_send_meanings();
    steps_send_meanings();
}

/// All that a step sends means what it should as its receiver will read it, if each message, behind those in front of it,
/// names and is aimed at what stands for the same there.
pub fn links_are_sent_with_meanings()
    ensures { LinksSaySo }
{}
