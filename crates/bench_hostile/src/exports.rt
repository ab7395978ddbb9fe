//! A call where hardly any export is left.

use crate::astray::Astray;
use crate::played::Played;
use crate::side::{BEGUN, Side};
use rpc_msg::{Items, RefId};

/// So many objects are exported beside that of the Bootstrap, so that one export is left of 4,096.
const OBJECTS: u16 = 4_094;

/// A call of the application that passes so many references that are exported, and one that is not; the next that passes
/// another is refused.
pub(crate) fn near_the_limit(side: &mut Side, size: u16) -> Result<Played, Astray> {
    let given = host_all(side)?;
    let mut refs = Items::new(side.alloc);
    for reference in given.iter().take(usize::from(size)) {
        refs.push(*reference)?;
    }
    let passed = refs.len() as u64;
    side.call(RefId(0), given)?;
    refs.push(side.host(u64::from(OBJECTS) + 1)?)?;
    side.call(RefId(0), refs)?;
    refuse_one_more(side)?;
    Ok(BEGUN.more(2, 2, (u64::from(OBJECTS) + 1).saturating_add(passed)))
}

fn host_all(side: &mut Side) -> Result<Items<RefId>, Astray> {
    let mut given = Items::new(side.alloc);
    for object in 1..=OBJECTS {
        given.push(side.host(u64::from(object))?)?;
    }
    Ok(given)
}

fn refuse_one_more(side: &mut Side) -> Result<(), Astray> {
    let hosted = side.host(u64::from(OBJECTS) + 2)?;
    let refs = Items::one(side.alloc, hosted)?;
    side.call_in_vain(RefId(0), refs)
}
