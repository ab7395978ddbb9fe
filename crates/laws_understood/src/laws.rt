//! The functions run no code: what each ensures is the law.

ghost use Rattle.laws_understood.specs.Understood.{StepsSendUnderstood, EveryRunIsUnderstood};

use laws_ends::names_stay;

/// In each step, from any state: a command sends only messages that are understood. A message that is understood makes a vat
/// of level 1 send only such messages.
pub fn steps_send_what_is_understood()
    ensures { StepsSendUnderstood }
{}

/// In every run of two new vats of level 1, each message that was sent is understood, and so is each that is on its way.
pub fn runs_send_what_is_understood()
    ensures { EveryRunIsUnderstood }
{
    steps_send_what_is_understood();
    names_stay();
}
