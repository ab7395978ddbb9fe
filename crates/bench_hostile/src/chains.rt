//! A chain of outcomes that the peer has the vat keep, each of which leads to the one before.

use crate::astray::Astray;
use crate::contents::{fields, path_to, repeated, result_at};
use crate::played::Played;
use crate::side::{BEGUN, Side};
use rpc_msg::{Items, Path};

/// A chain of so many, and at each link a call to its end, which goes out over the wire.
pub(crate) fn of_outcomes(side: &mut Side, size: u16) -> Result<Played, Astray> {
    chain(side, size)?;
    let links = u64::from(size);
    Ok(BEGUN.more(1 + 3 * links, 1 + 3 * links, links))
}

/// The same, and a Return that names its end so many times, each of which is passed on.
pub(crate) fn named_often(side: &mut Side, size: u16) -> Result<Played, Astray> {
    chain(side, size)?;
    let end = result_at(u32::from(size) + 1, path_to(side.alloc, 0, 0)?);
    let descriptors = repeated(side.alloc, end, size)?;
    let payload = fields(side.alloc, 0, size)?;
    side.returns(payload, descriptors, false)?;
    let links = u64::from(size);
    Ok(BEGUN.more(2 + 3 * links, 3 + 3 * links, 2 * links))
}

// One call is left open.
fn chain(side: &mut Side, size: u16) -> Result<(), Astray> {
    let field = path_to(side.alloc, 0, 0)?;
    side.calls(2, 1, field, Items::new(side.alloc))?;
    for link in 0..size {
        add_link(side, u32::from(link) + 1, field)?;
    }
    Ok(())
}

// Each call goes to the field of the last answer, and so over the wire; its Return leads there too; and the last answer is
// finished: of each link a Return, a Finish and the next Call go out.
fn add_link(side: &mut Side, last: u32, field: Path) -> Result<(), Astray> {
    let payload = fields(side.alloc, 0, 1)?;
    let descriptors = Items::one(side.alloc, result_at(last, field))?;
    side.returns(payload, descriptors, false)?;
    side.finishes(last)?;
    let next = last.saturating_add(1);
    side.calls(next.saturating_add(1), next, field, Items::new(side.alloc))
}
