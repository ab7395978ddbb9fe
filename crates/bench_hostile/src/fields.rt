//! A Return whose capabilities are fields of one another.

use crate::astray::Astray;
use crate::contents::{fields, path_to, result_at};
use crate::played::Played;
use crate::side::{BEGUN, Side};
use rpc_msg::{Descriptor, ExportId, Items};
use std::alloc::Global;

/// An object of the peer.
pub(crate) const OBJECT: Descriptor = Descriptor::SenderHosted(ExportId(8));

/// Each leads to the next, and the last to the first.
pub(crate) fn in_a_circle(side: &mut Side, size: u16) -> Result<Played, Astray> {
    let first = result_at(2, path_to(side.alloc, 0, 0)?);
    in_a_row(side, size, 0, first)
}

/// Each leads to the next, so many structs down, and the last to that: a Call, a Return that passes all of them on, and a
/// Finish go out.
pub(crate) fn in_a_row(
    side: &mut Side,
    size: u16,
    down: usize,
    last: Descriptor,
) -> Result<Played, Astray> {
    let first = path_to(side.alloc, 0, 0)?;
    side.calls(2, 1, first, Items::new(side.alloc))?;
    let payload = fields(side.alloc, down, size)?;
    let descriptors = row(side.alloc, size, down, last)?;
    side.returns(payload, descriptors, false)?;
    Ok(BEGUN.more(2, 3, u64::from(size)))
}

fn row(
    alloc: Global,
    size: u16,
    down: usize,
    last: Descriptor,
) -> Result<Items<Descriptor>, Astray> {
    let mut descriptors = Items::new(alloc);
    for index in 1..size {
        descriptors.push(result_at(2, path_to(alloc, down, index)?))?;
    }
    descriptors.push(last)?;
    Ok(descriptors)
}
