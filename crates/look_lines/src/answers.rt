//! Lines of Returns and Finishes.
use crate::names::Names;
use crate::naming::{View, write_asked, write_question};
use crate::parts::{write_between, write_descriptors, write_exception};
use crate::questions::write_size;
use look_books::Question;
use look_pieces::Side;
use rpc_msg::{Finish, QuestionId, ReturnBody};
use std::alloc::AllocError;

/// What a Return says.
#[derive(Clone, Copy, Drop)]
pub(crate) enum Outcome<'a> {
    Body(&'a ReturnBody),
    SentElsewhere,
    TakenFrom(QuestionId),
    Unknown,
}

/// The question of an end that a Return answers, which was not answered before.
pub(crate) fn answered<'a, N: Names>(
    view: &View<'a, N>,
    side: Side,
    question: QuestionId,
) -> Option<&'a Question> {
    let his = view.books.end(side).questions.get(&question.0)?;
    if his.returned.is_some() {
        return None;
    }
    Some(his)
}

fn write_outcome<N: Names>(
    out: &mut String,
    view: &View<'_, N>,
    side: Side,
    outcome: &Outcome<'_>,
) -> Result<(), AllocError> {
    match outcome {
        Outcome::SentElsewhere => out.push_str("results sent elsewhere"),
        Outcome::Unknown => out.push_str("of unknown kind"),
        Outcome::TakenFrom(question) => {
            if view.books.end(side).questions.contains_key(&question.0) {
                out.push_str("the results of its own ")?;
                let _known = write_question(out, view, side, *question)?;
                return Ok(());
            }
            write!(out, "the results of its question {}", question.0)
        }
        Outcome::Body(ReturnBody::Canceled) => out.push_str("canceled"),
        Outcome::Body(ReturnBody::Exception(exception)) => {
            out.push_str("exception ")?;
            write_exception(out, exception.kind, exception.reason.as_str())
        }
        Outcome::Body(ReturnBody::Results(payload, descriptors)) => {
            out.push_str("results")?;
            write_size(out, payload)?;
            write_descriptors(out, descriptors.as_slice())
        }
    }
}

/// A Return of an end.
pub(crate) fn write_return<N: Names>(
    out: &mut String,
    view: &View<'_, N>,
    side: Side,
    time: Option<u64>,
    answer: QuestionId,
    flag: bool,
    outcome: &Outcome<'_>,
) -> Result<(), AllocError> {
    write!(out, "Return {}", answer.0)?;
    let his = answered(view, side.other(), answer);
    if let Some(his) = his {
        write!(out, " to {} ", his.number)?;
        write_asked(out, view, his.asked)?;
        out.push_str(" after ")?;
        write_between(out, his.time, time)?;
    }
    out.push_str(": ")?;
    write_outcome(out, view, side, outcome)?;
    if let Some(his) = his
        && flag
        && !his.gives.is_empty()
    {
        out.push_str(", gives back its params' capabilities")?;
    }
    write_content(out, view, his, outcome)
}

/// The content of a Return to that question.
fn write_content<N: Names>(
    out: &mut String,
    view: &View<'_, N>,
    his: Option<&Question>,
    outcome: &Outcome<'_>,
) -> Result<(), AllocError> {
    let asked = match his {
        Some(his) => Some(his.asked),
        None => None,
    };
    match outcome {
        Outcome::Body(ReturnBody::Results(payload, descriptors)) => {
            view.names
                .write_results(out, asked, payload, descriptors.as_slice())
        }
        _ => Ok(()),
    }
}

/// A Finish of an end.
pub(crate) fn write_finish<N: Names>(
    out: &mut String,
    view: &View<'_, N>,
    side: Side,
    finish: &Finish,
) -> Result<(), AllocError> {
    write!(out, "Finish {}", finish.question.0)?;
    let Some(mine) = view.books.end(side).questions.get(&finish.question.0) else {
        return Ok(());
    };
    if mine.finished.is_some() {
        return Ok(());
    }
    write!(out, " of {} ", mine.number)?;
    write_asked(out, view, mine.asked)?;
    match &mine.returned {
        None => out.push_str(", before its Return"),
        Some(returned) if finish.release_result_caps && !returned.gives.is_empty() => {
            out.push_str(", gives back its results' capabilities")
        }
        Some(_) => Ok(()),
    }
}
