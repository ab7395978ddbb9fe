//! What is said of a frame, as text.
use crate::naming::Naming;
use crate::watch::{Judged, Told};
use look_books::{Books, Breach, Moment, Oddity};
use look_lines::{Ends, View, write_breach, write_line, write_none, write_oddity};
use look_pieces::Side;
use std::alloc::{AllocError, Global};

/// How messages are told.
#[derive(Drop)]
pub(crate) struct Wording {
    pub(crate) ends: Ends,
    pub(crate) naming: Naming,
    /// Only what breaks the protocol.
    pub(crate) only: bool,
}

fn write_breaches(
    out: &mut String,
    wording: &Wording,
    side: Side,
    number: u64,
    breaches: &[Breach],
) -> Result<(), AllocError> {
    for breach in breaches {
        write_breach(out, &wording.ends, side, number, breach)?;
    }
    Ok(())
}

fn write_oddities(
    out: &mut String,
    wording: &Wording,
    oddities: &[Oddity],
) -> Result<(), AllocError> {
    if wording.only {
        return Ok(());
    }
    for oddity in oddities {
        write_oddity(out, oddity)?;
    }
    Ok(())
}

fn write_message(
    out: &mut String,
    wording: &Wording,
    books: &Books,
    side: Side,
    moment: Moment,
    judged: &Judged,
) -> Result<(), AllocError> {
    if wording.only {
        return Ok(());
    }
    let view = View {
        books,
        ends: &wording.ends,
        names: &wording.naming,
    };
    write_line(out, &view, side, moment, &judged.envelope, judged.heading)
}

fn write_fault(
    out: &mut String,
    wording: &Wording,
    side: Side,
    moment: Moment,
    why: &str,
) -> Result<(), AllocError> {
    if !wording.only {
        write_none(out, side, moment, why)?;
    }
    let name = wording.ends.name(side);
    let number = moment.number;
    writeln!(out, "message {number} by the {name}: {why}")
}

/// Writes what a frame is, by the books before it.
pub(crate) fn write_told(
    alloc: Global,
    out: &mut String,
    wording: &Wording,
    books: &Books,
    side: Side,
    moment: Moment,
    told: &Told,
) -> Result<(), AllocError> {
    match told {
        Told::Message(judged) => {
            write_message(out, wording, books, side, moment, judged)?;
            let found = &judged.found;
            write_breaches(out, wording, side, moment.number, found.breaches.as_slice())?;
            write_oddities(out, wording, found.oddities.as_slice())
        }
        Told::None(fault) => {
            let why = format!(in alloc; "{fault}")?;
            write_fault(out, wording, side, moment, why.as_str())
        }
    }
}
