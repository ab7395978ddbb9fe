//! What a frame says, with the names of a schema.
ghost use Rattle.std.specs.Prelude.{◌≡◌, IfOk, OnOk, MatchOption, None, Some};
ghost use Rattle.serde_json.specs.Data.{put as with_member, string};
ghost use Rattle.serde_json.specs.View.{view, members_view};
ghost use Rattle.capn_trees.specs.Views.{view as tree_view};
ghost use Rattle.rpc_codec.specs.Envelopes.{seen_envelope};
ghost use Rattle.look_names.specs.Names.{IsIndexed};
ghost use Rattle.rpc_dump_lib.specs.Named.{IsNamed, call_in, members_in, with_method, with_names, named_as, line_data};

use crate::envelopes::write_envelope;
use crate::form::Form;
use look_names::Schema;
use rpc_codec::Envelope;
use rpc_msg::{Call, Message, PlainMessage};
use serde_json::{Map, ToValue, Value, put};
use std::alloc::{AllocError, Global};

/// The Call that a frame says.
fn call_in(envelope: &Envelope) -> Option<&Call>
    ensures { MatchOption result (call_in (seen_envelope envelope.now) ≡ None) (λ call. call_in (seen_envelope envelope.now) ≡ Some call.now) }
{
    match envelope {
        Envelope::Message(Message::Plain(PlainMessage::Call(call))) => Some(call),
        Envelope::TailCall(call) => Some(call),
        _ => None,
    }
}

/// The members of an object; of another value none.
pub fn members_of(alloc: Global, value: Value) -> Map<String, Value>
    ensures { members_view result.entries ≡ members_in (view value) }
{
    match value {
        Value::Object(members) => members,
        _ => Map::new(alloc),
    }
}

fn put_text(
    members: &mut Map<String, Value>,
    alloc: Global,
    key: &str,
    text: &str,
) -> Result<(), AllocError>
    ensures { OnOk result (members_view members.new.entries ≡ with_member key.now (string text.now) (members_view members.old.entries)) }
{
    let text = text.to_value(alloc)?;
    put(members, alloc, key, text)
}

/// Puts the name of a Call's method beside it, if the schema has it.
fn put_method(
    members: &mut Map<String, Value>,
    alloc: Global,
    schema: &Schema,
    call: &Call,
) -> Result<(), AllocError>
    ensures { IsIndexed schema.now → OnOk result (members_view members.new.entries ≡ with_method (tree_view schema.now.request) call.now (members_view members.old.entries)) }
{
    match schema.method(call.interface, call.method) {
        Some(method) => put_text(members, alloc, "method", method.name),
        None => Ok(()),
    }
}

/// Puts the names of a Call's interface and method beside it, as far as the schema has them.
fn put_names(
    members: &mut Map<String, Value>,
    alloc: Global,
    schema: &Schema,
    call: &Call,
) -> Result<(), AllocError>
    ensures { IsIndexed schema.now → OnOk result (members_view members.new.entries ≡ with_names (tree_view schema.now.request) call.now (members_view members.old.entries)) }
{
    match schema.name(call.interface) {
        Some(name) => {
            put_text(members, alloc, "interface", name)?;
            put_method(members, alloc, schema, call)
        }
        None => Ok(()),
    }
}

/// A Call with its names by a schema.
fn write_named(
    alloc: Global,
    schema: &Schema,
    call: &Call,
    value: Value,
) -> Result<Value, AllocError>
    ensures { IsIndexed schema.now → IfOk result (λ v. view v ≡ named_as (tree_view schema.now.request) call.now (view value)) }
{
    let mut members = members_of(alloc, value);
    put_names(&mut members, alloc, schema, call)?;
    Ok(Value::Object(members))
}

/// What a frame says, in that form. It fails only if memory is refused.
pub fn write_line(alloc: Global, envelope: &Envelope, form: &Form<'_>) -> Result<Value, AllocError>
    ensures { IsNamed form.now → IfOk result (λ v. view v ≡ line_data form.now (seen_envelope envelope.now)) }
{
    let value = write_envelope(alloc, envelope, form.trees)?;
    match (form.schema, call_in(envelope)) {
        (Some(schema), Some(call)) => write_named(alloc, schema, call, value),
        _ => Ok(value),
    }
}
