//! What is open, as a table over time: a leak is a column that grows.
use crate::names::Ends;
use look_books::{Books, End, Moment};
use look_pieces::Side;
use std::alloc::AllocError;

/// How much of an end is open.
#[derive(Clone, Copy, Debug, PartialEq, Eq, Drop)]
struct Amounts {
    questions: u64,
    exports: u64,
    counts: u64,
    bytes: u64,
}

/// How much is open behind a message.
#[derive(Clone, Copy, Debug, PartialEq, Eq, Drop)]
pub struct Totals {
    moment: Moment,
    client: Amounts,
    server: Amounts,
}

fn amounts_of(end: &End) -> Amounts {
    Amounts {
        questions: end.questions.len() as u64,
        exports: end.exports.len() as u64,
        counts: end.held,
        bytes: end.bytes,
    }
}

/// How much is open behind that message.
pub fn totals_of(books: &Books, moment: Moment) -> Totals {
    Totals {
        moment,
        client: amounts_of(books.end(Side::Client)),
        server: amounts_of(books.end(Side::Server)),
    }
}

/// Writes the names of the columns.
pub fn write_totals_head(out: &mut String, ends: &Ends) -> Result<(), AllocError> {
    let client = ends.client.as_str();
    let server = ends.server.as_str();
    writeln!(
        out,
        "after   seconds  questions {client} {server}   exports {client} {server}   counts {client} {server}   bytes {client} {server}"
    )
}

fn write_moment(out: &mut String, moment: Moment) -> Result<(), AllocError> {
    let number = moment.number;
    write!(out, "{number:5} ")?;
    match moment.time {
        None => out.push_str("        -"),
        Some(time) => {
            let millis = time.saturating_add(500) / 1_000;
            let seconds = millis / 1_000;
            let rest = millis % 1_000;
            write!(out, "{seconds:5}.{rest:03}")
        }
    }
}

/// Writes one row.
pub fn write_totals(out: &mut String, totals: &Totals) -> Result<(), AllocError> {
    write_moment(out, totals.moment)?;
    let (x, y) = (totals.client, totals.server);
    let (a, b) = (x.questions, y.questions);
    write!(out, " {a:16} {b:6}")?;
    let (a, b) = (x.exports, y.exports);
    write!(out, " {a:16} {b:6}")?;
    let (a, b) = (x.counts, y.counts);
    write!(out, " {a:15} {b:6}")?;
    let (a, b) = (x.bytes, y.bytes);
    writeln!(out, " {a:12} {b:8}")
}
