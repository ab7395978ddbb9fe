//! Questions are asked, answered, finished, and no longer kept.
ghost use Rattle.std.specs.Prelude.{◌≡◌, is_some, OnOk};
ghost use Rattle.look_books.specs.Ends.{kept_of, question_at};
ghost use Rattle.look_books.specs.After.{with_question, is_unused, closing, is_over, settle, unanswered_of, unfinished_of, flagged, asked_of, given_in, returned, finished};

use crate::act::Asked;
use crate::end::End;
use crate::question::{Closed, Finished, Question, Returned};
use rpc_msg::{ExportId, Memory, QuestionId};

/// What is kept of a question that is no longer open.
fn closing(question: &Question) -> Closed
    ensures { result ≡ closing question.now }
{
    let finished = match question.finished {
        Some(finished) => Some(finished.number),
        None => None,
    };
    Closed {
        number: question.number,
        asked: question.asked,
        finished,
        last: question.last(),
    }
}

fn is_over(question: &Question) -> bool
    ensures { result ≡ is_over question.now }
{
    question.finished.is_some() && question.is_free()
}

/// The question with its Return.
pub(crate) fn with_return(question: Question, said: Returned) -> Question
    ensures { result ≡ returned question said }
{
    let mut question = question;
    question.returned = Some(said);
    question
}

/// The question with its Finish.
pub(crate) fn with_finish(question: Question, said: Finished) -> Question
    ensures { result ≡ finished question said }
{
    let mut question = question;
    question.finished = Some(said);
    question
}

/// What the Return of a question gave.
pub(crate) fn given_in(question: &Question) -> &[ExportId]
    ensures { result.now ≡ given_in question.now.returned }
{
    match &question.returned {
        Some(returned) => returned.gives.as_slice(),
        None => &[],
    }
}

/// The flag of its Finish, if that came.
pub(crate) fn flagged(question: &Question) -> bool
    ensures { result ≡ flagged question.now.finished }
{
    match question.finished {
        Some(finished) => finished.flag,
        None => false,
    }
}

/// What asked a question, if there is one.
pub(crate) fn asked_of(question: &Option<Question>) -> Option<Asked>
    ensures { result ≡ asked_of question.now }
{
    match question {
        Some(question) => Some(question.asked),
        None => None,
    }
}

impl End {
    ghost use Rattle.std.specs.Prelude.{◌≡◌, Some, None, is_some, OnOk, cond};
    ghost use Rattle.look_books.specs.Ends.{kept_of, question_at};
    ghost use Rattle.look_books.specs.After.{with_question, is_unused, settle, unanswered_of, unfinished_of, taken};

    /// Whether a question may be kept under that id.
    pub(crate) fn is_unused(&self, question: QuestionId) -> bool
        ensures { result ≡ is_unused (question_at (kept_of self.now) question) }
    {
        match self.questions.get(&question.0) {
            None => true,
            Some(old) => old.is_free(),
        }
    }

    pub(crate) fn put_question(&mut self, id: QuestionId, question: Question) -> Result<(), Memory>
        ensures { OnOk result (kept_of self.new ≡ with_question id (Some question) (kept_of self.old)) }
    {
        self.questions.insert(id.0, question)?;
        Ok(())
    }

    /// Takes out a question that is not answered so far.
    pub(crate) fn take_unanswered(&mut self, id: QuestionId) -> Option<Question>
        ensures taken { result ≡ unanswered_of (question_at (kept_of self.old) id) }
        ensures kept { kept_of self.new ≡ taken id result (kept_of self.old) }
    {
        let question = self.questions.get(&id.0)?;
        if question.returned.is_some() {
            return None;
        }
        self.questions.remove(&id.0)
    }

    /// Takes out a question that is not finished so far.
    pub(crate) fn take_unfinished(&mut self, id: QuestionId) -> Option<Question>
        ensures taken { result ≡ unfinished_of (question_at (kept_of self.old) id) }
        ensures kept { kept_of self.new ≡ taken id result (kept_of self.old) }
    {
        let question = self.questions.get(&id.0)?;
        if question.finished.is_some() {
            return None;
        }
        self.questions.remove(&id.0)
    }

    /// A question is kept so: as an open one, or as the last one of its id that is not.
    pub(crate) fn settle(&mut self, id: QuestionId, question: Question) -> Result<(), Memory>
        ensures { OnOk result (kept_of self.new ≡ settle id question (kept_of self.old)) }
    {
        if !is_over(&question) {
            return self.put_question(id, question);
        }
        self.questions.remove(&id.0);
        self.closed.insert(id.0, closing(&question))?;
        Ok(())
    }
}
