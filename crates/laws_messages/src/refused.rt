//! The functions run no code: what each ensures is the law.

ghost use Rattle.laws_messages.specs.Left.{FewChecksAreLeft, FewAreLeftInRuns};
ghost use Rattle.laws_messages.specs.Sound.{SoundByTheRest};
ghost use Rattle.laws_messages.specs.Taken.{MostAreTaken, MostAreTakenInRuns, NoMessageIsRefused, NoneIsRefusedInRuns, NoVatTakesTheOtherDown};

use crate::{
    disembargos_are_met, exports_resolve_once, named_answers_are_there, named_exports_are_there,
    payloads_fit,
};
use laws_runs::{counts_agree_in_scenes, every_run_is_shown, sound_by_scenes};

/// In every scene the oldest message on its way to a vat is one that the vat understands. Of the checks that it is put
/// to only these may fail: whether too many calls wait, and whether the target of a Disembargo leads back. So it is in
/// every run at a vat that is up, except for the Abort of the other vat, which is down.
pub fn few_checks_are_left()
    ensures scenes { FewChecksAreLeft }
    ensures runs { FewAreLeftInRuns }
{
    every_run_is_shown();
    counts_agree_in_scenes();
    named_exports_are_there();
    exports_resolve_once();
    named_answers_are_there();
    payloads_fit();
    disembargos_are_met();
}

/// In every scene, and in every run while it is up, a vat refuses no Bootstrap, no Return, no Finish, no Resolve, no
/// Release, and no Disembargo that comes back; and a Call only if no more calls may wait.
pub fn most_messages_are_taken()
    ensures scenes { MostAreTaken }
    ensures runs { MostAreTakenInRuns }
{
    few_checks_are_left();
}

/// In every scene in which each Disembargo that is to turn back leads back, a vat refuses no message, except for a Call
/// if no more may wait. If all scenes are so, no vat that is up does in any run. A vat goes down only by a shut, for
/// lack of room or memory, for that limit, or by the Abort of the other vat, which went down before.
pub fn no_message_is_refused()
    ensures scenes { NoMessageIsRefused }
    ensures runs { NoneIsRefusedInRuns }
    ensures falls { NoVatTakesTheOtherDown }
{
    every_run_is_shown();
    few_checks_are_left();
}

/// All that is promised of runs holds once the rest is shown of scenes: the order, that all is delivered, each delivery and
/// each end, and that Disembargos lead back.
pub fn sound_by_the_rest()
    ensures { SoundByTheRest }
{
    counts_agree_in_scenes();
    sound_by_scenes();
    no_message_is_refused();
}
