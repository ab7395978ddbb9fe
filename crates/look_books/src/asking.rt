//! Whether a question may be asked, finished, or named.
ghost use Rattle.std.specs.Prelude.{◌≡◌};
ghost use Rattle.look_books.specs.Ends.{kept_of, closed_at};
ghost use Rattle.look_books.specs.Checks.{in_use, not_held, not_asked, lost_before, no_target, no_target_of, over_by, not_finishable};

use crate::act::Asking;
use crate::breach::{Breach, Lost, Over, Use};
use crate::end::End;
use rpc_msg::{ExportId, QuestionId, Target};

/// The id of a new question may not be one of an open question.
pub(crate) fn in_use(own: &End, question: QuestionId) -> Option<Breach>
    ensures { result ≡ in_use (kept_of own.now) question }
{
    let old = own.questions.get(&question.0)?;
    if old.is_free() {
        return None;
    }
    let returned = match &old.returned {
        Some(returned) => Some(returned.number),
        None => None,
    };
    Some(Breach::InUse(question, old.number, returned))
}

/// An export of the other end has to be held.
pub(crate) fn not_held(heard: &End, usage: Use, export: ExportId) -> Option<Breach>
    ensures { result ≡ not_held (kept_of heard.now) usage export }
{
    if heard.count(export) > 0 {
        return None;
    }
    Some(Breach::NotHeld(usage, export, heard.gone.get(&export.0).copied()))
}

/// Results can be named from the question on to its Finish.
pub(crate) fn not_asked(own: &End, usage: Use, question: QuestionId) -> Option<Breach>
    ensures { result ≡ not_asked (kept_of own.now) usage question }
{
    let lost = match own.questions.get(&question.0) {
        Some(mine) => match mine.finished {
            None => return None,
            Some(finished) => Lost::Finished(finished.number),
        },
        None => lost_before(own, question),
    };
    Some(Breach::NotAsked(usage, question, lost))
}

fn lost_before(own: &End, question: QuestionId) -> Lost
    ensures { result ≡ lost_before (closed_at (kept_of own.now) question) }
{
    match own.closed.get(&question.0) {
        Some(closed) => match closed.finished {
            Some(number) => Lost::Finished(number),
            None => Lost::Over,
        },
        None => Lost::NeverAsked,
    }
}

/// A target has to be there.
pub(crate) fn no_target(own: &End, heard: &End, target: &Target) -> Option<Breach>
    ensures { result ≡ no_target (kept_of own.now) (kept_of heard.now) target.now }
{
    match target {
        Target::ImportedCap(export) => not_held(heard, Use::Target, *export),
        Target::PromisedAnswer(question, _) => not_asked(own, Use::Target, *question),
    }
}

/// The same of the target of a question, if it has one.
pub(crate) fn no_target_of(own: &End, heard: &End, asking: &Asking<'_>) -> Option<Breach>
    ensures { result ≡ no_target_of (kept_of own.now) (kept_of heard.now) asking.now.target }
{
    match &asking.target {
        Some(target) => no_target(own, heard, target),
        None => None,
    }
}

/// Why no question with that id is open.
pub(crate) fn over(end: &End, question: QuestionId) -> Over
    ensures { result ≡ over_by (closed_at (kept_of end.now) question) }
{
    match end.closed.get(&question.0) {
        Some(closed) => Over::Since(closed.last),
        None => Over::NeverAsked,
    }
}

/// A question is finished once.
pub(crate) fn not_finishable(own: &End, question: QuestionId) -> Option<Breach>
    ensures { result ≡ not_finishable (kept_of own.now) question }
{
    let Some(mine) = own.questions.get(&question.0) else {
        return Some(Breach::FinishesNone(question, over(own, question)));
    };
    let finished = mine.finished?;
    Some(Breach::FinishesAgain(question, finished.number))
}
