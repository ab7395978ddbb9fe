//! The walk of a path, by the places in a message.
ghost use Rattle.std.specs.Prelude.{◌≡◌};
ghost use Rattle.capn_reading.specs.Reading.{root_of, tree_read};
ghost use Rattle.capn_wire.specs.Walking.{capability_at};

use crate::path::{CapAt, Op};
use capn_reading::{Kind, View};

/// What stands at a path from the root.
pub fn find(view: &View, path: &[Op]) -> CapAt
    ensures { result ≡ capability_at (tree_read (root_of view.now.message view.now.caps)) path.now }
{
    let mut place = view.root();
    for op in path {
        let Op::Field(number) = *op else {
            continue;
        };
        let Some(next) = place.field(number) else {
            return CapAt::NotCap;
        };
        place = next;
    }
    match place.kind() {
        Kind::Null => CapAt::Null,
        Kind::Capability(index) => CapAt::Cap(index),
        Kind::Struct => CapAt::NotCap,
        Kind::List => CapAt::NotCap,
    }
}
