//! What is open.
use crate::names::Names;
use crate::naming::{View, write_asked, write_given};
use crate::parts::{write_between, write_seconds};
use look_books::{Export, Moment, Question};
use look_pieces::Side;
use std::alloc::AllocError;

const SIDES: [Side; 2] = [Side::Client, Side::Server];

fn write_question_line<N: Names>(
    out: &mut String,
    view: &View<'_, N>,
    side: Side,
    id: u32,
    question: &Question,
    time: Option<u64>,
) -> Result<(), AllocError> {
    let name = view.ends.name(side);
    write!(
        out,
        "  question {id} of the {name}: asked in {} ",
        question.number
    )?;
    write_asked(out, view, question.asked)?;
    match &question.returned {
        None => out.push_str(", without its Return")?,
        Some(returned) => write!(out, ", returned in {}, not finished", returned.number)?,
    }
    if let Some(finished) = question.finished {
        write!(out, ", finished in {}", finished.number)?;
    }
    if time.is_some() {
        out.push_str(", ")?;
        write_between(out, question.time, time)?;
        out.push_str(" old")?;
    }
    out.push('\n')
}

fn write_questions<N: Names>(
    out: &mut String,
    view: &View<'_, N>,
    side: Side,
    time: Option<u64>,
) -> Result<(), AllocError> {
    for (id, question) in &view.books.end(side).questions {
        if !question.is_free() {
            write_question_line(out, view, side, *id, question, time)?;
        }
    }
    Ok(())
}

fn write_export_line<N: Names>(
    out: &mut String,
    view: &View<'_, N>,
    side: Side,
    id: u32,
    export: &Export,
) -> Result<(), AllocError> {
    let name = view.ends.name(side);
    let other = view.ends.name(side.other());
    let count = export.count;
    write!(
        out,
        "  export {id} of the {name}: the {other} holds {count}, "
    )?;
    write_given(out, view, &export.given)?;
    if export.times > 0 {
        let times = export.times;
        let last = export.last;
        write!(out, " and {times} times more, last in {last}")?;
    }
    match export.resolved {
        Some(number) => writeln!(out, ", resolved in {number}"),
        None if export.promise => out.push_str(", not resolved\n"),
        None => out.push('\n'),
    }
}

fn write_exports<N: Names>(
    out: &mut String,
    view: &View<'_, N>,
    side: Side,
) -> Result<(), AllocError> {
    for (id, export) in &view.books.end(side).exports {
        write_export_line(out, view, side, *id, export)?;
    }
    Ok(())
}

fn write_embargoes<N: Names>(
    out: &mut String,
    view: &View<'_, N>,
    side: Side,
) -> Result<(), AllocError> {
    let name = view.ends.name(side);
    for (id, number) in &view.books.end(side).embargoes {
        writeln!(out, "  embargo {id} of the {name}: since {number}")?;
    }
    Ok(())
}

fn has_open<N: Names>(view: &View<'_, N>, side: Side) -> bool {
    let end = view.books.end(side);
    if !end.exports.is_empty() || !end.embargoes.is_empty() {
        return true;
    }
    for question in end.questions.values() {
        if !question.is_free() {
            return true;
        }
    }
    false
}

/// Writes what is open behind the last message.
pub fn write_open<N: Names>(
    out: &mut String,
    view: &View<'_, N>,
    last: Moment,
) -> Result<(), AllocError> {
    write!(out, "open after message {}", last.number)?;
    if let Some(time) = last.time {
        out.push_str(", at ")?;
        write_seconds(out, time)?;
        out.push_str(" s")?;
    }
    if !has_open(view, Side::Client) && !has_open(view, Side::Server) {
        return out.push_str(": nothing\n");
    }
    out.push_str(":\n")?;
    for side in SIDES {
        write_questions(out, view, side, last.time)?;
    }
    for side in SIDES {
        write_exports(out, view, side)?;
    }
    for side in SIDES {
        write_embargoes(out, view, side)?;
    }
    Ok(())
}
