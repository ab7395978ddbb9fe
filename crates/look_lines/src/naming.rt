//! How questions, exports and methods are named.
use crate::names::{Ends, Names};
use crate::parts::{write_descriptor, write_kind};
use look_books::{Asked, Books, Given, Kind, Origin};
use look_pieces::Side;
use rpc_msg::{Descriptor, ExportId, Path, QuestionId, Target};
use std::alloc::AllocError;

/// By what a message is told: the books before it, and names.
#[derive(Clone, Copy, Drop)]
pub struct View<'a, N: Names> {
    pub books: &'a Books,
    pub ends: &'a Ends,
    pub names: &'a N,
}

/// What asked a question.
pub(crate) fn write_asked<N: Names>(
    out: &mut String,
    view: &View<'_, N>,
    asked: Asked,
) -> Result<(), AllocError> {
    match asked {
        Asked::Bootstrap => out.push_str("Bootstrap"),
        Asked::Call(method) => view.names.write_method(out, method),
        Asked::Unknown(number) => write_kind(out, Kind::of_number(number)),
    }
}

/// The message that asked a question of an end, if there was one, and what it asked.
fn question_of<N: Names>(
    view: &View<'_, N>,
    side: Side,
    question: QuestionId,
) -> Option<(u64, Asked)> {
    let end = view.books.end(side);
    if let Some(mine) = end.questions.get(&question.0) {
        return Some((mine.number, mine.asked));
    }
    let closed = end.closed.get(&question.0)?;
    Some((closed.number, closed.asked))
}

/// A question of an end, by the message that asked it, and what that asked. Of one that was never asked nothing is written.
pub(crate) fn write_question<N: Names>(
    out: &mut String,
    view: &View<'_, N>,
    side: Side,
    question: QuestionId,
) -> Result<Option<Asked>, AllocError> {
    let Some((number, asked)) = question_of(view, side, question) else {
        return Ok(None);
    };
    write!(out, "{number} ")?;
    write_asked(out, view, asked)?;
    Ok(Some(asked))
}

/// Results of a question of an end, and where in them.
pub(crate) fn write_answer<N: Names>(
    out: &mut String,
    view: &View<'_, N>,
    side: Side,
    question: QuestionId,
    path: &Path,
) -> Result<(), AllocError> {
    out.push_str("results of ")?;
    match write_question(out, view, side, question)? {
        Some(asked) => view.names.write_place(out, asked, path),
        None => write!(out, "question {}", question.0),
    }
}

/// Where a capability was given.
pub(crate) fn write_given<N: Names>(
    out: &mut String,
    view: &View<'_, N>,
    given: &Given,
) -> Result<(), AllocError> {
    let number = given.number;
    let index = given.index;
    match given.origin {
        Origin::Params(asked) => {
            write!(
                out,
                "given in {number}, capability {index} of the params of "
            )?;
            write_asked(out, view, asked)
        }
        Origin::Results(Some(asked)) => {
            write!(
                out,
                "given in {number}, capability {index} of the results of "
            )?;
            write_asked(out, view, asked)
        }
        Origin::Results(None) => {
            write!(
                out,
                "given in {number}, capability {index} of the results of ?"
            )
        }
        Origin::Resolution(promise) => {
            write!(out, "given in {number}, the resolution of {}", promise.0)
        }
    }
}

/// An export of an end.
pub(crate) fn write_export<N: Names>(
    out: &mut String,
    view: &View<'_, N>,
    side: Side,
    export: ExportId,
) -> Result<(), AllocError> {
    let name = view.ends.name(side);
    write!(out, "export {} of the {name}", export.0)?;
    let Some(held) = view.books.end(side).exports.get(&export.0) else {
        return Ok(());
    };
    out.push_str(" (")?;
    write_given(out, view, &held.given)?;
    out.push(')')
}

/// A target that a message of an end names.
pub(crate) fn write_target<N: Names>(
    out: &mut String,
    view: &View<'_, N>,
    side: Side,
    target: &Target,
) -> Result<(), AllocError> {
    match target {
        Target::ImportedCap(export) => write_export(out, view, side.other(), *export),
        Target::PromisedAnswer(question, path) => { write_answer(out, view, side, *question, path) }
    }
}

/// What a promise of an end was resolved to.
pub(crate) fn write_resolution<N: Names>(
    out: &mut String,
    view: &View<'_, N>,
    side: Side,
    descriptor: &Descriptor,
) -> Result<(), AllocError> {
    match descriptor {
        Descriptor::ReceiverHosted(export) => write_export(out, view, side.other(), *export),
        Descriptor::ReceiverAnswer(question, path) => {
            write_answer(out, view, side, *question, path)
        }
        _ => write_descriptor(out, descriptor),
    }
}
