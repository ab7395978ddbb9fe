//! The line of a message.
ghost use Rattle.std.specs.Prelude.{◌≡◌, ℕ, List, IfOk, OnOk, string_bytes};
ghost use Rattle.serde_json.specs.Data.{Data};
ghost use Rattle.serde_json.specs.View.{view, members_view};
ghost use Rattle.look_pieces.specs.Pieces.{other_side};
ghost use Rattle.look_books.specs.Ends.{kept_of, end_of};
ghost use Rattle.rpc_dump_lib.specs.Named.{IsNamed};
ghost use Rattle.look_json.specs.Lines.{given_data, with_front, with_links, IsFound, IsMessage, none_data, Writes};

use crate::found::{write_breaches, write_no_message, write_oddities};
use crate::links::{about, descriptors_of, of_descriptor, target_of};
use crate::members::{link, put_link, put_text, write_line};
use look_books::{Books, End, Found, Moment};
use look_lines::Ends;
use look_pieces::Side;
use rpc_codec::{Envelope, EnvelopeFault, Heading};
use rpc_dump_lib::{Form, members_of, write_line as write_said};
use rpc_msg::Descriptor;
use serde_json::{Map, Value, put};
use std::alloc::{AllocError, Global};
use trace_write::write_numbers;

/// Where a frame comes in a conversation: the books before it, its sender, and when it passed.
#[derive(Clone, Copy, Drop)]
pub struct Place<'a> {
    /// What both ends said before.
    pub books: &'a Books,
    /// How the ends are called.
    pub ends: &'a Ends,
    /// Its sender.
    pub side: Side,
    /// Its number, its time and its size.
    pub moment: Moment,
}

/// Puts the number, the time, the sender and the size beside what a frame says.
fn put_front(
    members: &mut Map<String, Value>,
    alloc: Global,
    place: &Place<'_>,
) -> Result<(), AllocError>
    ensures { OnOk result ((name : List ℕ) × (members_view members.new.entries ≡ with_front place.now.moment name (members_view members.old.entries))) }
{
    put_link(members, alloc, "n", Some(place.moment.number))?;
    put_link(members, alloc, "time", place.moment.time)?;
    put_link(members, alloc, "frame", Some(place.moment.size))?;
    put_text(members, alloc, "from", place.ends.name(place.side))
}

/// For each descriptor the message that it is of.
fn write_given(
    alloc: Global,
    own: &End,
    heard: &End,
    number: u64,
    descriptors: &[Descriptor],
) -> Result<Value, AllocError>
    ensures { IfOk result (λ v. view v ≡ given_data (kept_of own.now) (kept_of heard.now) number descriptors.now) }
{
    let mut values = Vec::new(alloc);
    for descriptor in descriptors {
        values.push(link(of_descriptor(own, heard, number, descriptor)))?;
    }
    Ok(Value::Array(values))
}

/// Puts the earlier messages beside a message that it belongs to.
fn put_links(
    members: &mut Map<String, Value>,
    alloc: Global,
    place: &Place<'_>,
    envelope: &Envelope,
    heading: Heading,
) -> Result<(), AllocError>
    ensures { OnOk result (members_view members.new.entries ≡ with_links (kept_of (end_of place.now.books.now place.now.side)) (kept_of (end_of place.now.books.now (other_side place.now.side))) place.now.moment.number envelope.now heading (members_view members.old.entries)) }
{
    let own = place.books.end(place.side);
    let heard = place.books.end(place.side.other());
    put_link(members, alloc, "of", about(own, heard, envelope, heading))?;
    put_link(members, alloc, "targetOf", target_of(own, heard, envelope))?;
    let descriptors = descriptors_of(envelope);
    let given = write_given(alloc, own, heard, place.moment.number, descriptors)?;
    put(members, alloc, "given", given)
}

/// Puts what is to be said of a message beside it.
fn put_found(
    members: &mut Map<String, Value>,
    alloc: Global,
    place: &Place<'_>,
    found: &Found,
) -> Result<(), AllocError>
    ensures { OnOk result (IsFound found.now (members_view members.old.entries) (members_view members.new.entries)) }
{
    let breaches = found.breaches.as_slice();
    let broken = write_breaches(alloc, place.ends, place.side, breaches)?;
    put(members, alloc, "breaks", broken)?;
    let odd = write_oddities(alloc, found.oddities.as_slice())?;
    put(members, alloc, "odd", odd)
}

/// Writes the line of a message, by what was found of it: what `rpc_dump` says of it in that form, and the rest beside it. It
/// fails only if memory is refused.
pub fn write_message(
    alloc: Global,
    out: &mut String,
    place: &Place<'_>,
    envelope: &Envelope,
    heading: Heading,
    found: &Found,
    form: &Form<'_>,
) -> Result<(), AllocError>
    ensures { IsNamed form.now → OnOk result ((d : Data) × IsMessage place.now.moment (kept_of (end_of place.now.books.now place.now.side)) (kept_of (end_of place.now.books.now (other_side place.now.side))) envelope.now heading found.now form.now d × Writes d (string_bytes out.old) (string_bytes out.new)) }
{
    let mut members = members_of(alloc, write_said(alloc, envelope, form)?);
    put_front(&mut members, alloc, place)?;
    put_links(&mut members, alloc, place, envelope, heading)?;
    put_found(&mut members, alloc, place, found)?;
    write_line(alloc, out, &Value::Object(members))
}

/// What is to be said of a frame that is no message, in these words.
fn none_said(
    alloc: Global,
    place: &Place<'_>,
    fault: EnvelopeFault,
    words: &str,
) -> Result<Value, AllocError>
    ensures { IfOk result (λ v. (name : List ℕ) × (view v ≡ none_data place.now.moment fault name words.now)) }
{
    let mut members = write_numbers(alloc, &[("fault", u64::from(fault.code()))])?;
    put_front(&mut members, alloc, place)?;
    put(
        &mut members,
        alloc,
        "breaks",
        write_no_message(alloc, words)?,
    )?;
    put(&mut members, alloc, "odd", Value::Array(Vec::new(alloc)))?;
    Ok(Value::Object(members))
}

/// Writes the line of a frame that is no message, with why it is none. It fails only if memory is refused.
pub fn write_none(
    alloc: Global,
    out: &mut String,
    place: &Place<'_>,
    fault: EnvelopeFault,
) -> Result<(), AllocError>
    ensures { OnOk result ((name words : List ℕ) × Writes (none_data place.now.moment fault name words) (string_bytes out.old) (string_bytes out.new)) }
{
    let words = format!(in alloc; "{fault}")?;
    let said = none_said(alloc, place, fault, words.as_str())?;
    write_line(alloc, out, &said)
}
