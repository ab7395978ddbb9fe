//! The functions run no code: what each ensures is the law.

ghost use Rattle.laws_verdicts.specs.Good.{EachGotWasSent, EachIsInOrder, EveryHeadedVerdictIsGood, EveryVerdictIsGood, NoneActsAfterDown, NotedCountsAgree};
ghost use Rattle.laws_verdicts.specs.Recorded.{RecordedAreReached, RecordedGoOn, RunsAreRecorded};

use laws_acts::steps_are_acts;
use laws_sound::worlds_keep_promises;
use rpc_check::verdict_is_first;
use rpc_machine::sends_raise_counts;

/// Two new vats of level 1 come to each run's journal, with the world to which the run leads. With their journal they
/// go on by each event and by each noting of counts. Except for what was noted it tells a run.
pub fn journals_tell_runs()
    ensures runs { RunsAreRecorded }
    ensures more { RecordedGoOn }
    ensures reached { RecordedAreReached }
{}

/// In the journal of two vats each delivery is of the next call that was made through its reference, at the place of the first.
pub fn each_is_in_order()
    ensures { EachIsInOrder }
{
    worlds_keep_promises();
}

/// In the journal of two vats each received message was sent by the other before.
pub fn each_got_was_sent()
    ensures { EachGotWasSent }
{}

/// In the journal of two vats a vat that went down sends nothing, delivers nothing, answers nothing and ends nothing.
pub fn none_acts_after_down()
    ensures { NoneActsAfterDown }
{}

/// Counts that are noted in the journal of two vats while both are up agree by what the journal says: each count of an export is
/// that of the other's import with what was sent and not received. What a true flag releases is found in the last question or
/// answer of its id that its receiver had sent when the flag was.
pub fn noted_counts_agree()
    ensures { NotedCountsAgree }
{
    steps_are_acts();
    sends_raise_counts();
}

/// The verdict of each journal of two new vats of level 1, whatever they were commanded and whenever messages came and
/// counts were noted, is good, with the number of its deliveries. So it is with a head in front.
pub fn every_verdict_is_good()
    ensures alone { EveryVerdictIsGood }
    ensures headed { EveryHeadedVerdictIsGood }
{
    verdict_is_first();
    each_is_in_order();
    each_got_was_sent();
    none_acts_after_down();
    noted_counts_agree();
}
