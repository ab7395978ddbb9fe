ghost use Rattle.std.specs.Prelude.{◌≡◌, IfOk, OnOk};
ghost use Rattle.serde_json.specs.Data.{Data, put as with_member, object};
ghost use Rattle.serde_json.specs.View.{view, members_view};
ghost use Rattle.trace_write.specs.Parts.{only};

use crate::members::{add_member, write_only};
use serde_json::{Map, Value, put};
use std::alloc::{AllocError, Global};

/// What stands in a list, or as a member of an object.
pub trait Part {
    ghost shown: { Self → Data };

    ghost fits: { Self → Type 0 };

    fn write(&self, alloc: Global) -> Result<Value, AllocError>
        ensures is { IfOk result (λ v. view v ≡ shown self.now) }
        ensures fits { OnOk result (fits self.now) };
}

/// Puts a part beside an object's members.
pub fn put_part<T: Part>(
    members: &mut Map<String, Value>,
    alloc: Global,
    key: &str,
    part: &T,
) -> Result<(), AllocError>
    ensures is { OnOk result (members_view members.new.entries ≡ with_member key.now (T.shown part.now) (members_view members.old.entries)) }
    ensures fits { OnOk result (T.fits part.now) }
{
    let value = part.write(alloc)?;
    put(members, alloc, key, value)
}

/// An object of these members and a part.
pub fn add_part<T: Part>(
    members: Map<String, Value>,
    alloc: Global,
    key: &str,
    part: &T,
) -> Result<Value, AllocError>
    ensures is { IfOk result (λ v. view v ≡ object (with_member key.now (T.shown part.now) (members_view members.entries))) }
    ensures fits { OnOk result (T.fits part.now) }
{
    let value = part.write(alloc)?;
    add_member(members, alloc, key, value)
}

/// An object of one member, a part.
pub fn write_under<T: Part>(alloc: Global, key: &str, part: &T) -> Result<Value, AllocError>
    ensures is { IfOk result (λ v. view v ≡ only key.now (T.shown part.now)) }
    ensures fits { OnOk result (T.fits part.now) }
{
    let value = part.write(alloc)?;
    write_only(alloc, key, value)
}
