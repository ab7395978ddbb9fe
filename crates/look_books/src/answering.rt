//! Whether a question may be answered so.
ghost use Rattle.std.specs.Prelude.{◌≡◌, OnOk, MatchResult};
ghost use Rattle.look_books.specs.Acts.{answers_of};
ghost use Rattle.look_books.specs.Ends.{kept_of};
ghost use Rattle.look_books.specs.Checks.{Finds, unanswered, takes_none, results_of_tail, no_tail_call, flag_back, judged_outcome, judged_answered, judged_answer, judged_return};

use crate::act::{Answering, Outcome};
use crate::asking::over;
use crate::breach::{Breach, GivenBack};
use crate::end::End;
use crate::judge::Found;
use crate::naming::judge_descriptors;
use crate::oddity::Oddity;
use crate::question::Question;
use crate::returning::too_many_of;
use rpc_msg::{ExportId, Memory, QuestionId};
use std::alloc::Global;

/// A question that is not answered so far, or why there is none.
pub(crate) fn unanswered(heard: &End, question: QuestionId) -> Result<&Question, Breach>
    ensures { MatchResult result (λ his. unanswered (kept_of heard.now) question ≡ Ok his.now) (λ breach. unanswered (kept_of heard.now) question ≡ Err breach) }
{
    let Some(his) = heard.questions.get(&question.0) else {
        return Err(Breach::AnswersNone(question, over(heard, question)));
    };
    match &his.returned {
        None => Ok(his),
        Some(returned) => Err(Breach::AnswersAgain(question, returned.number)),
    }
}

/// Results can be taken of a tail call that is not finished.
fn takes_none(own: &End, question: QuestionId) -> Option<Breach>
    ensures { result ≡ takes_none (kept_of own.now) question }
{
    let is_open = match own.questions.get(&question.0) {
        Some(mine) => mine.tail && mine.finished.is_none(),
        None => false,
    };
    if is_open {
        return None;
    }
    Some(Breach::TakesNone(question))
}

fn results_of_tail(his: &Question) -> Option<Oddity>
    ensures { result ≡ results_of_tail his.now }
{
    if his.tail {
        return Some(Oddity::ResultsOfTailCall(his.number));
    }
    None
}

fn no_tail_call(his: &Question) -> Option<Breach>
    ensures { result ≡ no_tail_call his.now }
{
    if his.tail {
        return None;
    }
    Some(Breach::NoTailCall(his.number))
}

fn judge_outcome(
    own: &End,
    his: &Question,
    answer: &Answering<'_>,
    found: &mut Found,
) -> Result<(), Memory>
    ensures { OnOk result (Finds found.old found.new (judged_outcome (kept_of own.now) his.now answer.now.question answer.now.outcome)) }
{
    match answer.outcome {
        Outcome::Results => found.wonder(results_of_tail(his)),
        Outcome::Exception => Ok(()),
        Outcome::Canceled => Ok(()),
        Outcome::SentElsewhere => found.add(no_tail_call(his)),
        Outcome::TakenFrom(question) => found.add(takes_none(own, question)),
        Outcome::Unknown => found.wonder(Some(Oddity::UnknownReturn(answer.question))),
    }
}

/// What the flag of a Return or a Finish gives back.
pub(crate) fn judge_flag(
    alloc: Global,
    heard: &End,
    flag: bool,
    exports: &[ExportId],
    found: &mut Found,
) -> Result<(), Memory>
    ensures { OnOk result (Finds found.old found.new (flag_back (kept_of heard.now) flag exports.now)) }
{
    if !flag {
        return Ok(());
    }
    too_many_of(alloc, heard, GivenBack::Flag, exports, found)
}

/// What the capabilities of the results name, and what is answered.
pub(crate) fn judge_return(
    alloc: Global,
    own: &End,
    heard: &End,
    answer: &Answering<'_>,
    found: &mut Found,
) -> Result<(), Memory>
    ensures { OnOk result (Finds found.old found.new (judged_return (kept_of own.now) (kept_of heard.now) (answers_of answer.now))) }
{
    judge_descriptors(own, heard, answer.descriptors, found)?;
    judge_answer(alloc, own, heard, answer, found)?;
    Ok(())
}

fn judge_answer(
    alloc: Global,
    own: &End,
    heard: &End,
    answer: &Answering<'_>,
    found: &mut Found,
) -> Result<(), Memory>
    ensures { OnOk result (Finds found.old found.new (judged_answer (kept_of own.now) (kept_of heard.now) (answers_of answer.now))) }
{
    match unanswered(heard, answer.question) {
        Err(breach) => found.add(Some(breach)),
        Ok(his) => judge_answered(alloc, own, heard, his, answer, found),
    }
}

/// What is said to a question that is not answered so far.
fn judge_answered(
    alloc: Global,
    own: &End,
    heard: &End,
    his: &Question,
    answer: &Answering<'_>,
    found: &mut Found,
) -> Result<(), Memory>
    ensures { OnOk result (Finds found.old found.new (judged_answered (kept_of own.now) (kept_of heard.now) (answers_of answer.now) his.now)) }
{
    judge_flag(alloc, heard, answer.flag, his.gives.as_slice(), found)?;
    judge_outcome(own, his, answer, found)?;
    Ok(())
}
