//! The functions run no code: what each ensures is the law.

ghost use Rattle.std.specs.Prelude.{ℕ, List};
ghost use Rattle.laws_runs.specs.Between.{IsKept};
ghost use Rattle.laws_runs.specs.Exports.{ExportSays, ExportSessionsHold};
ghost use Rattle.laws_runs.specs.Names.{NamesAreMet};
ghost use Rattle.laws_runs.specs.Questions.{SessionsAreRows};
ghost use Rattle.laws_runs.specs.Worlds.{ActsKeepSessions, Stand, SessionsStand};

use laws_acts::steps_are_acts;

/// However a question is asked, answered and finished, it and its answer, with what is on the way of them, stand in one
/// of thirteen ways, and in each of these at some time. No message of them is one that its receiver would refuse.
pub fn question_sessions_hold()
    ensures { SessionsAreRows (List ℕ) (List ℕ) }
{}

/// However often an export is given, named and let go, counts and kinds fit at both vats, and no message of it is one
/// that its receiver would refuse.
pub fn export_sessions_hold()
    ensures { ExportSessionsHold }
{}

/// So an export's count is what the other vat holds and what is under way; each message that names it finds it; what is
/// let go is there; and it is resolved once.
pub fn export_session_says()
    ensures { ExportSays }
{}

/// A message that names an answer comes behind the message that opens it, and ahead of the one that closes it.
pub fn answers_are_there_when_named()
    ensures { NamesAreMet (List ℕ) (List ℕ) }
{}

/// Whatever a vat does, each of its questions and answers does what its session allows, and so does each message that it
/// sends or takes.
pub fn acts_keep_sessions()
    ensures { ActsKeepSessions }
{}

/// As long as no vat falls and nothing is refused, each question of either vat and its answer at the other, with what is
/// on the way of them, stand in one of the thirteen ways.
pub fn sessions_stand()
    ensures kept { IsKept Stand }
    ensures stand { SessionsStand }
{
    steps_are_acts();
}
