//! What breaks the protocol, in words.
use crate::names::Ends;
use crate::parts::write_kind;
use look_books::{Breach, GivenBack, Kind, Lost, Over, Unresolved, Use};
use look_pieces::Side;
use rpc_msg::{ExportId, QuestionId};
use std::alloc::AllocError;

pub(crate) fn write_use(out: &mut String, usage: Use) -> Result<(), AllocError> {
    match usage {
        Use::Target => out.push_str("its target is"),
        Use::Capability(index) => write!(out, "capability {index} is"),
        Use::Resolution => out.push_str("it resolves to"),
    }
}

fn write_not_held(
    out: &mut String,
    other: &str,
    usage: Use,
    export: ExportId,
    gone: Option<u64>,
) -> Result<(), AllocError> {
    write_use(out, usage)?;
    write!(out, " export {} of the {other}, which ", export.0)?;
    match gone {
        Some(number) => write!(out, "was given back whole in {number}"),
        None => out.push_str("was never given"),
    }
}

fn write_not_asked(
    out: &mut String,
    usage: Use,
    question: QuestionId,
    lost: Lost,
) -> Result<(), AllocError> {
    write_use(out, usage)?;
    write!(out, " the results of question {}, which ", question.0)?;
    match lost {
        Lost::NeverAsked => out.push_str("was never asked"),
        Lost::Finished(number) => write!(out, "was finished in {number}"),
        Lost::Over => out.push_str("is over"),
    }
}

fn write_too_many(
    out: &mut String,
    other: &str,
    by: GivenBack,
    count: u64,
    export: ExportId,
    there: u64,
) -> Result<(), AllocError> {
    match by {
        GivenBack::Itself => out.push_str("it gives back ")?,
        GivenBack::Flag => out.push_str("its flag gives back ")?,
    }
    write!(
        out,
        "{count} of export {} of the {other}, of which {there} ",
        export.0
    )?;
    if there == 1 {
        out.push_str("is there")
    } else {
        out.push_str("are there")
    }
}

fn write_in_use(
    out: &mut String,
    question: QuestionId,
    asked: u64,
    returned: Option<u64>,
) -> Result<(), AllocError> {
    write!(out, "question {} is in use since {asked}, ", question.0)?;
    match returned {
        Some(number) => write!(out, "its Return came in {number}"),
        None => out.push_str("without its Return"),
    }
}

fn write_answers_none(
    out: &mut String,
    other: &str,
    question: QuestionId,
    over: Over,
) -> Result<(), AllocError> {
    write!(out, "it answers question {}, which ", question.0)?;
    match over {
        Over::Since(number) => write!(out, "is over since {number}"),
        Over::NeverAsked => write!(out, "the {other} never asked"),
    }
}

fn write_finishes_none(
    out: &mut String,
    question: QuestionId,
    over: Over,
) -> Result<(), AllocError> {
    write!(out, "it finishes question {}, which ", question.0)?;
    match over {
        Over::Since(number) => write!(out, "is over since {number}"),
        Over::NeverAsked => out.push_str("was never asked"),
    }
}

fn write_resolves_none(
    out: &mut String,
    promise: ExportId,
    why: Unresolved,
) -> Result<(), AllocError> {
    write!(out, "it resolves {}, which ", promise.0)?;
    match why {
        Unresolved::Resolved(number) => write!(out, "was resolved in {number}"),
        Unresolved::NeverPromised => out.push_str("was never given as a promise"),
        Unresolved::NoPromise => out.push_str("is no promise"),
    }
}

fn write_again(
    out: &mut String,
    verb: &str,
    question: QuestionId,
    number: u64,
) -> Result<(), AllocError> {
    write!(
        out,
        "it {verb} question {} again, after {number}",
        question.0
    )
}

fn write_takes_none(out: &mut String, question: QuestionId) -> Result<(), AllocError> {
    write!(
        out,
        "it takes the results of question {}, which is no open tail call",
        question.0
    )
}

fn write_never_sent(out: &mut String, other: &str, kind: Kind) -> Result<(), AllocError> {
    out.push_str("it sends back a ")?;
    write_kind(out, kind)?;
    write!(out, " that the {other} never sent")
}

/// Writes what breaks the protocol, in words.
pub fn write_breach_words(
    out: &mut String,
    ends: &Ends,
    side: Side,
    breach: &Breach,
) -> Result<(), AllocError> {
    let own = ends.name(side);
    let other = ends.name(side.other());
    match *breach {
        Breach::BehindAbort(number) => write!(out, "it comes behind the Abort of {number}"),
        Breach::InUse(question, asked, returned) => write_in_use(out, question, asked, returned),
        Breach::NotHeld(usage, export, gone) => write_not_held(out, other, usage, export, gone),
        Breach::NotAsked(usage, question, lost) => write_not_asked(out, usage, question, lost),
        Breach::TooMany(by, count, export, there) => {
            write_too_many(out, other, by, count, export, there)
        }
        Breach::AnswersNone(question, over) => write_answers_none(out, other, question, over),
        Breach::AnswersAgain(question, number) => write_again(out, "answers", question, number),
        Breach::NoTailCall(number) => write!(
            out,
            "resultsSentElsewhere answers {number}, which is no tail call"
        ),
        Breach::TakesNone(question) => write_takes_none(out, question),
        Breach::FinishesNone(question, over) => write_finishes_none(out, question, over),
        Breach::FinishesAgain(question, number) => write_again(out, "finishes", question, number),
        Breach::ResolvesNone(promise, why) => write_resolves_none(out, promise, why),
        Breach::EmbargoInUse(embargo, number) => {
            write!(out, "embargo {} is in use since {number}", embargo.0)
        }
        Breach::LeadsElsewhere => {
            write!(out, "its target is not known to lead back to the {own}")
        }
        Breach::NoEmbargo(embargo) => {
            write!(out, "embargo {} of the {other} is not under way", embargo.0)
        }
        Breach::NeverSent(kind) => write_never_sent(out, other, kind),
    }
}

/// Writes what of a message of an end breaks the protocol, as a line: `message 31 by the client: ..`.
pub fn write_breach(
    out: &mut String,
    ends: &Ends,
    side: Side,
    number: u64,
    breach: &Breach,
) -> Result<(), AllocError> {
    let own = ends.name(side);
    write!(out, "message {number} by the {own}: ")?;
    write_breach_words(out, ends, side, breach)?;
    out.push('\n')
}
