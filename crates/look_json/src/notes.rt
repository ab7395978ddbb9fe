//! What else is said.
ghost use Rattle.std.specs.Prelude.{◌≡◌, List, ℕ, IfOk, OnOk, string_bytes};
ghost use Rattle.serde_json.specs.View.{view};
ghost use Rattle.look_json.specs.Lines.{rest_data, cut_data, stuck_data, Writes};

use crate::found::write_no_message;
use crate::members::{put_text, write_line};
use capn_trees::PayloadFault;
use serde_json::{Value, put};
use std::alloc::{AllocError, Global};
use trace_write::{write_numbers, write_only};

/// Writes that the end of that name stops inside a message, of which so many bytes came.
pub fn write_rest(
    alloc: Global,
    out: &mut String,
    name: &str,
    count: usize,
) -> Result<(), AllocError>
    ensures { OnOk result (Writes (rest_data name.now count) (string_bytes out.old) (string_bytes out.new)) }
{
    let mut members = write_numbers(alloc, &[("rest", count as u64)])?;
    put_text(&mut members, alloc, "from", name)?;
    write_line(alloc, out, &Value::Object(members))
}

/// What is to be said of an end that is cut, in these words.
fn cut_said(alloc: Global, name: &str, number: u64, words: &str) -> Result<Value, AllocError>
    ensures { IfOk result (λ v. view v ≡ cut_data name.now number words.now) }
{
    let mut members = write_numbers(alloc, &[("cut", number)])?;
    put_text(&mut members, alloc, "from", name)?;
    put(
        &mut members,
        alloc,
        "breaks",
        write_no_message(alloc, words)?,
    )?;
    Ok(Value::Object(members))
}

/// Writes that nothing more of the end of that name is read, and why: it would be message `number`, or be behind so many
/// messages of that end.
pub fn write_cut(
    alloc: Global,
    out: &mut String,
    name: &str,
    number: u64,
    fault: PayloadFault,
) -> Result<(), AllocError>
    ensures { OnOk result ((words : List ℕ) × Writes (cut_data name.now number words) (string_bytes out.old) (string_bytes out.new)) }
{
    let words = format!(in alloc; "{fault}")?;
    let said = cut_said(alloc, name, number, words.as_str())?;
    write_line(alloc, out, &said)
}

/// Writes that no order of the two makes sense behind here.
pub fn write_stuck(alloc: Global, out: &mut String) -> Result<(), AllocError>
    ensures { OnOk result (Writes stuck_data (string_bytes out.old) (string_bytes out.new)) }
{
    let stuck = write_only(alloc, "stuck", Value::Bool(true))?;
    write_line(alloc, out, &stuck)
}
