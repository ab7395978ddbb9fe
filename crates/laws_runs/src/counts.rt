//! The functions run no code: what each ensures is the law.

ghost use Rattle.laws_runs.specs.Between.{IsKept};
ghost use Rattle.laws_runs.specs.Agreed.{Agree, CountsAgreeInSteadyWorlds, MessagesAreMet};
ghost use Rattle.laws_runs.specs.Entries.{EntriesCount};
ghost use Rattle.laws_runs.specs.Imports.{ImportsArePaid};
ghost use Rattle.laws_runs.specs.SceneSessions.{CountsOfScenes, CountsOfRuns};

use crate::{every_run_is_shown, sessions_stand};
use laws_acts::steps_are_acts;
use laws_steps::nodes_are_there;
use rpc_machine::sends_raise_counts;

/// The count of an import rises by the descriptors of a message that a vat takes, and falls by what its messages let go:
/// a vat lets go of no more than it holds, and tells of all of it.
pub fn imports_are_paid()
    ensures { ImportsArePaid }
{}

/// An export or an import that is there counts at least one, so each Release lets go at least one.
pub fn entries_count()
    ensures { EntriesCount }
{}

/// As long as no vat falls and nothing is refused, an export's count is what the other vat holds of it and what is under
/// way.
pub fn counts_agree()
    ensures kept { IsKept Agree }
    ensures agree { CountsAgreeInSteadyWorlds }
{
    steps_are_acts();
    sends_raise_counts();
}

/// As long as no vat falls and nothing is refused, the oldest message on its way to a vat is about a question or an
/// answer as it is there. It takes no more off an export's count than there is.
pub fn messages_are_met()
    ensures { MessagesAreMet }
{
    counts_agree();
}

/// So it is in each scene. Questions and answers stand as their sessions say. An export's count is what the other vat
/// holds of it and what is under way. An import is there exactly if a place names it. The oldest message on its way to
/// a vat finds what it speaks of.
pub fn counts_agree_in_scenes()
    ensures { CountsOfScenes }
{
    sessions_stand();
    counts_agree();
    messages_are_met();
    every_run_is_shown();
    nodes_are_there();
}

/// So in every run of two vats, while neither is down: the count of each export is what the other vat holds of it and what
/// is under way, and an import is there exactly if a place names it.
pub fn counts_agree_in_runs()
    ensures { CountsOfRuns }
{
    counts_agree_in_scenes();
    every_run_is_shown();
}
