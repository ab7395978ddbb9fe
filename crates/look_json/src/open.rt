//! What is open.
ghost use Rattle.std.specs.Prelude.{OnOk, string_bytes};
ghost use Rattle.serde_json.specs.Data.{Data};
ghost use Rattle.look_json.specs.Lines.{Writes};

use crate::members::{put_link, put_text, write_line};
use look_books::{Books, Export, Moment, Question};
use look_lines::Ends;
use look_pieces::Side;
use serde_json::{Map, Value, put};
use std::alloc::{AllocError, Global};
use trace_write::{write_numbers, write_only};

const SIDES: [Side; 2] = [Side::Client, Side::Server];

fn write_question(
    alloc: Global,
    name: &str,
    id: u32,
    question: &Question,
) -> Result<Value, AllocError> {
    let returned = match &question.returned {
        Some(returned) => Some(returned.number),
        None => None,
    };
    let finished = match question.finished {
        Some(finished) => Some(finished.number),
        None => None,
    };
    let numbers = &[("asked", question.number), ("id", u64::from(id))];
    let mut members = write_numbers(alloc, numbers)?;
    put_text(&mut members, alloc, "from", name)?;
    put_link(&mut members, alloc, "returned", returned)?;
    put_link(&mut members, alloc, "finished", finished)?;
    put_link(&mut members, alloc, "time", question.time)?;
    Ok(Value::Object(members))
}

fn write_export(alloc: Global, name: &str, id: u32, export: &Export) -> Result<Value, AllocError> {
    let numbers = &[
        ("given", export.given.number),
        ("held", export.count),
        ("id", u64::from(id)),
        ("index", export.given.index),
        ("last", export.last),
        ("times", export.times),
    ];
    let mut members = write_numbers(alloc, numbers)?;
    put_text(&mut members, alloc, "from", name)?;
    put_link(&mut members, alloc, "resolved", export.resolved)?;
    put(&mut members, alloc, "promise", Value::Bool(export.promise))?;
    Ok(Value::Object(members))
}

fn write_embargo(alloc: Global, name: &str, id: u32, since: u64) -> Result<Value, AllocError> {
    let mut members = write_numbers(alloc, &[("id", u64::from(id)), ("since", since)])?;
    put_text(&mut members, alloc, "from", name)?;
    Ok(Value::Object(members))
}

/// The open questions of both ends.
fn write_questions(alloc: Global, books: &Books, ends: &Ends) -> Result<Value, AllocError> {
    let mut values = Vec::new(alloc);
    for side in SIDES {
        for (id, question) in &books.end(side).questions {
            if !question.is_free() {
                values.push(write_question(alloc, ends.name(side), *id, question)?)?;
            }
        }
    }
    Ok(Value::Array(values))
}

/// The exports of both ends that the other holds.
fn write_exports(alloc: Global, books: &Books, ends: &Ends) -> Result<Value, AllocError> {
    let mut values = Vec::new(alloc);
    for side in SIDES {
        for (id, export) in &books.end(side).exports {
            values.push(write_export(alloc, ends.name(side), *id, export)?)?;
        }
    }
    Ok(Value::Array(values))
}

/// The embargoes of both ends that are under way.
fn write_embargoes(alloc: Global, books: &Books, ends: &Ends) -> Result<Value, AllocError> {
    let mut values = Vec::new(alloc);
    for side in SIDES {
        for (id, since) in &books.end(side).embargoes {
            values.push(write_embargo(alloc, ends.name(side), *id, *since)?)?;
        }
    }
    Ok(Value::Array(values))
}

/// Writes what is open behind the last message: the questions, exports and embargoes of both ends. It fails only if memory is
/// refused.
pub fn write_open(
    alloc: Global,
    out: &mut String,
    books: &Books,
    ends: &Ends,
    last: Moment,
) -> Result<(), AllocError>
    ensures { OnOk result ((d : Data) × Writes d (string_bytes out.old) (string_bytes out.new)) }
{
    let mut members = Map::new(alloc);
    put_link(&mut members, alloc, "after", Some(last.number))?;
    put_link(&mut members, alloc, "time", last.time)?;
    put(
        &mut members,
        alloc,
        "questions",
        write_questions(alloc, books, ends)?,
    )?;
    put(
        &mut members,
        alloc,
        "exports",
        write_exports(alloc, books, ends)?,
    )?;
    put(
        &mut members,
        alloc,
        "embargoes",
        write_embargoes(alloc, books, ends)?,
    )?;
    let open = write_only(alloc, "open", Value::Object(members))?;
    write_line(alloc, out, &open)
}
