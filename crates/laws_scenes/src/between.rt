//! The functions run no code: what each ensures is the law.

ghost use Rattle.laws_scenes.specs.Meeting.{AcrossInScenes, ExportsMeetInScenes, LoopsMeetInScenes, OldestAreLast, OldestAreMet, OldestLetGoWell, QuestionsMeetInScenes};

use laws_messages::embargoes_are_about;
use laws_runs::counts_agree_in_scenes;
use rpc_machine::sends_raise_counts;

/// In each scene what asks on the way is of a question that is there, and so is what returns. If the Return came the
/// question is asked no more, and is not returned again. An answer whose Return was not sent is not asked again, and
/// may close if it is finished.
pub fn questions_meet()
    ensures { QuestionsMeetInScenes }
{
    counts_agree_in_scenes();
}

/// In each scene a Disembargo on its way is of an embargo that is there: on its way to the other vat, and on its way back.
pub fn loops_meet()
    ensures { LoopsMeetInScenes }
{
    embargoes_are_about();
}

/// In each scene what a vat imports the other one exports, and so what messages on the way are aimed at or name: exports of their
/// receiver, and of their sender.
pub fn exports_meet()
    ensures { ExportsMeetInScenes }
{
    sends_raise_counts();
    counts_agree_in_scenes();
}

/// So in each scene all is so that the record of the middle of a step (`laws_routes`) says of a vat with the other one, and with what
/// is on its way.
pub fn vats_meet()
    ensures { AcrossInScenes }
{
    questions_meet();
    loops_meet();
    exports_meet();
}

/// In each scene the oldest message on its way to a vat is the last of its kind for its question. A Bootstrap or a Call
/// asks once. Behind a Return the question is asked and returned no more. Behind a Finish nothing names the answer
/// until the question is asked again.
pub fn oldest_are_last()
    ensures { OldestAreLast }
{
    counts_agree_in_scenes();
}

/// In each scene take what the oldest message on its way to a vat lets go of exports, by its flag or by its count. It
/// is held by nobody any more, and nothing that is on the way behind it is aimed at it, gives it or names it.
pub fn oldest_let_go_well()
    ensures { OldestLetGoWell }
{
    sends_raise_counts();
    counts_agree_in_scenes();
}

/// So in each scene all is so that the laws of whole steps take as known of the oldest message on its way to a vat.
/// Left are that no Return of a question that is not given up is canceled, and that a reference has one embargo at
/// most, of an own node.
pub fn oldest_are_met()
    ensures { OldestAreMet }
{
    embargoes_are_about();
    oldest_are_last();
    oldest_let_go_well();
}
