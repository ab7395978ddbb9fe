//! Members of objects.
ghost use Rattle.std.specs.Prelude.{◌≡◌, OnOk, string_bytes};
ghost use Rattle.serde_json.specs.Data.{put as with_member, string};
ghost use Rattle.serde_json.specs.View.{view, members_view};
ghost use Rattle.look_json.specs.Lines.{link_data, Writes};

use serde_json::{Map, ToValue, Value, put};
use std::alloc::{AllocError, Global};

/// The number of a message, or `null`.
pub(crate) fn link(number: Option<u64>) -> Value
    ensures { view result ≡ link_data number }
{
    match number {
        Some(number) => Value::from(number),
        None => Value::Null,
    }
}

/// Puts a number beside an object's members, or `null`.
pub(crate) fn put_link(
    members: &mut Map<String, Value>,
    alloc: Global,
    key: &str,
    number: Option<u64>,
) -> Result<(), AllocError>
    ensures { OnOk result (members_view members.new.entries ≡ with_member key.now (link_data number) (members_view members.old.entries)) }
{
    put(members, alloc, key, link(number))
}

/// Puts a text beside an object's members.
pub(crate) fn put_text(
    members: &mut Map<String, Value>,
    alloc: Global,
    key: &str,
    text: &str,
) -> Result<(), AllocError>
    ensures { OnOk result (members_view members.new.entries ≡ with_member key.now (string text.now) (members_view members.old.entries)) }
{
    let text = text.to_value(alloc)?;
    put(members, alloc, key, text)
}

/// Writes a value as a line.
pub(crate) fn write_line(alloc: Global, out: &mut String, value: &Value) -> Result<(), AllocError>
    ensures { OnOk result (Writes (view value.now) (string_bytes out.old) (string_bytes out.new)) }
{
    let line = value.to_string(alloc)?;
    out.push_str(line.as_str())?;
    out.push('\n')
}
