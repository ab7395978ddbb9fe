ghost use Rattle.std.specs.Prelude.{◌≡◌, codes, IfOk, OnOk, map};
ghost use Rattle.serde_json.specs.Data.{put as with_member, no_members, object, string};
ghost use Rattle.serde_json.specs.View.{view, members_view};
ghost use Rattle.trace_write.specs.Parts.{nat, only, vat_data};
ghost use Rattle.trace_write.specs.Members.{with_all};
ghost use Rattle.trace_write.specs.Fits.{FitsU32};

use crate::parts::name_of_vat;
use rpc_msg::Vat;
use serde_json::{Map, ToValue, Value, put};
use std::alloc::{AllocError, Global};

/// The members of an object that are numbers. Others can be put beside them, in any order.
pub fn write_numbers(
    alloc: Global,
    numbers: &[(&str, u64)],
) -> Result<Map<String, Value>, AllocError>
    ensures { IfOk result (λ m. members_view m.entries ≡ with_all (map (λ n. (n.0.now, nat n.1)) numbers.now) no_members) }
{
    let mut members = Map::new(alloc);
    for (key, number) in numbers {
        put(&mut members, alloc, key, Value::from(*number))?;
    }
    Ok(members)
}

/// An object of numbers.
pub(crate) fn write_flat(alloc: Global, numbers: &[(&str, u64)]) -> Result<Value, AllocError>
    ensures { IfOk result (λ v. view v ≡ object (with_all (map (λ n. (n.0.now, nat n.1)) numbers.now) no_members)) }
{
    let members = write_numbers(alloc, numbers)?;
    Ok(Value::Object(members))
}

/// Puts a text beside an object's members.
pub(crate) fn put_text(
    members: &mut Map<String, Value>,
    alloc: Global,
    key: &str,
    text: &str,
) -> Result<(), AllocError>
    ensures { OnOk result (members_view members.new.entries ≡ with_member key.now (string text.now) (members_view members.old.entries)) }
{
    let value = text.to_value(alloc)?;
    put(members, alloc, key, value)
}

/// The members that a vat's entry of that kind has: the vat, the kind, and numbers. Others can be put beside them.
pub(crate) fn write_event(
    alloc: Global,
    kind: &str,
    vat: Vat,
    numbers: &[(&str, u64)],
) -> Result<Map<String, Value>, AllocError>
    ensures { IfOk result (λ m. members_view m.entries ≡ with_member (codes "vat") (vat_data vat) (
        with_member (codes "k") (string kind.now) (with_all (map (λ n. (n.0.now, nat n.1)) numbers.now) no_members))) }
{
    let mut members = write_numbers(alloc, numbers)?;
    put_text(&mut members, alloc, "k", kind)?;
    put_text(&mut members, alloc, "vat", name_of_vat(vat))?;
    Ok(members)
}

/// A vat's entry of that kind, of which nothing is said but numbers.
pub(crate) fn write_flat_event(
    alloc: Global,
    kind: &str,
    vat: Vat,
    numbers: &[(&str, u64)],
) -> Result<Value, AllocError>
    ensures { IfOk result (λ v. view v ≡ object (with_member (codes "vat") (vat_data vat) (
        with_member (codes "k") (string kind.now) (with_all (map (λ n. (n.0.now, nat n.1)) numbers.now) no_members)))) }
{
    let members = write_event(alloc, kind, vat, numbers)?;
    Ok(Value::Object(members))
}

/// An object of these members and one more.
pub fn add_member(
    mut members: Map<String, Value>,
    alloc: Global,
    key: &str,
    value: Value,
) -> Result<Value, AllocError>
    ensures { IfOk result (λ v. view v ≡ object (with_member key.now (view value) (members_view members.entries))) }
{
    put(&mut members, alloc, key, value)?;
    Ok(Value::Object(members))
}

/// An object of one member.
pub fn write_only(alloc: Global, key: &str, value: Value) -> Result<Value, AllocError>
    ensures { IfOk result (λ v. view v ≡ only key.now (view value)) }
{
    add_member(Map::new(alloc), alloc, key, value)
}

/// An object of one member, a number.
pub fn write_number(alloc: Global, key: &str, number: u32) -> Result<Value, AllocError>
    ensures is { IfOk result (λ v. view v ≡ only key.now (nat number)) }
    ensures fits { OnOk result (FitsU32 number) }
{
    write_only(alloc, key, Value::from(number))
}
