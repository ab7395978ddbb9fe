//! What is to be said of a message.
ghost use Rattle.std.specs.Prelude.{◌≡◌, IfOk};
ghost use Rattle.serde_json.specs.View.{view};
ghost use Rattle.look_json.specs.Lines.{check_of, broken_data, no_message_data, IsBroken, IsOdd, AreSaid};

use crate::members::put_text;
use look_books::{Breach, Oddity};
use look_lines::{Ends, write_breach_words, write_oddity_words};
use look_pieces::Side;
use serde_json::{ToValue, Value};
use std::alloc::{AllocError, Global};
use trace_write::write_numbers;

/// The check that finds no message in a frame.
const NO_MESSAGE: u64 = 14;

/// The number of the check that finds a breach.
fn check_of(breach: &Breach) -> u64
    ensures { result ≡ check_of breach.now }
{
    match breach {
        Breach::InUse(_, _, _) => 1,
        Breach::NotHeld(_, _, _) => 2,
        Breach::NotAsked(_, _, _) => 3,
        Breach::AnswersNone(_, _) => 4,
        Breach::AnswersAgain(_, _) => 4,
        Breach::TooMany(_, _, _, _) => 5,
        Breach::FinishesNone(_, _) => 6,
        Breach::FinishesAgain(_, _) => 6,
        Breach::ResolvesNone(_, _) => 7,
        Breach::EmbargoInUse(_, _) => 8,
        Breach::LeadsElsewhere => 8,
        Breach::NoEmbargo(_) => 9,
        Breach::NoTailCall(_) => 10,
        Breach::TakesNone(_) => 11,
        Breach::NeverSent(_) => 12,
        Breach::BehindAbort(_) => 13,
    }
}

/// What breaks the protocol: the number of a check, and words.
fn write_check(alloc: Global, check: u64, words: &str) -> Result<Value, AllocError>
    ensures { IfOk result (λ v. view v ≡ broken_data check words.now) }
{
    let mut members = write_numbers(alloc, &[("check", check)])?;
    put_text(&mut members, alloc, "words", words)?;
    Ok(Value::Object(members))
}

/// What breaks the protocol where no message is, in words.
pub(crate) fn write_no_message(alloc: Global, words: &str) -> Result<Value, AllocError>
    ensures { IfOk result (λ v. view v ≡ no_message_data words.now) }
{
    let mut values = Vec::new(alloc);
    values.push(write_check(alloc, NO_MESSAGE, words)?)?;
    Ok(Value::Array(values))
}

/// A breach of a message of an end.
fn write_breach(
    alloc: Global,
    ends: &Ends,
    side: Side,
    breach: &Breach,
) -> Result<Value, AllocError>
    ensures { IfOk result (λ v. IsBroken breach.now (view v)) }
{
    let mut words = String::new(alloc);
    write_breach_words(&mut words, ends, side, breach)?;
    write_check(alloc, check_of(breach), words.as_str())
}

/// The breaches of a message of an end.
pub(crate) fn write_breaches(
    alloc: Global,
    ends: &Ends,
    side: Side,
    breaches: &[Breach],
) -> Result<Value, AllocError>
    ensures { IfOk result (λ v. AreSaid IsBroken breaches.now (view v)) }
{
    let mut values = Vec::with_capacity(alloc, breaches.len())?;
    for breach in breaches {
        values.push_reserved(write_breach(alloc, ends, side, breach)?);
    }
    Ok(Value::Array(values))
}

fn write_oddity(alloc: Global, oddity: &Oddity) -> Result<Value, AllocError>
    ensures { IfOk result (λ v. IsOdd oddity.now (view v)) }
{
    let mut words = String::new(alloc);
    write_oddity_words(&mut words, oddity)?;
    words.as_str().to_value(alloc)
}

/// What of a message is odd.
pub(crate) fn write_oddities(alloc: Global, oddities: &[Oddity]) -> Result<Value, AllocError>
    ensures { IfOk result (λ v. AreSaid IsOdd oddities.now (view v)) }
{
    let mut values = Vec::with_capacity(alloc, oddities.len())?;
    for oddity in oddities {
        values.push_reserved(write_oddity(alloc, oddity)?);
    }
    Ok(Value::Array(values))
}
