//! The application's own promises, each of which leads to the next, and the last to an object.

use crate::astray::Astray;
use crate::played::Played;
use crate::side::Side;
use rpc_msg::{Items, PromiseId, RefId};

/// A promise, and the reference to it.
pub(crate) type Made = (PromiseId, RefId);

/// They are resolved from the first on; and as many calls go through the first, before the last is resolved.
pub(crate) fn from_the_first(side: &mut Side, size: u16) -> Result<Played, Astray> {
    let promises = make_all(side, size)?;
    lead_all(side, &promises)?;
    call_first(side, &promises)?;
    Ok(all_delivered(size))
}

/// From the last on.
pub(crate) fn from_the_last(side: &mut Side, size: u16) -> Result<Played, Astray> {
    let promises = make_all(side, size)?;
    for index in (0..promises.len()).rev() {
        lead_on(side, &promises, index)?;
    }
    call_first(side, &promises)?;
    Ok(all_delivered(size))
}

/// So many promises, which are open.
pub(crate) fn make_all(side: &mut Side, size: u16) -> Result<Vec<Made>, Astray> {
    let mut promises = Vec::new(side.alloc);
    for _ in 0..size {
        promises.push(side.promise()?)?;
    }
    Ok(promises)
}

/// Each promise is resolved to the next, from the first on.
pub(crate) fn lead_all(side: &mut Side, promises: &[Made]) -> Result<(), Astray> {
    for index in 0..promises.len() {
        lead_on(side, promises, index)?;
    }
    Ok(())
}

/// The promise of that number is resolved to the next, if there is one.
pub(crate) fn lead_on(side: &mut Side, promises: &[Made], index: usize) -> Result<(), Astray> {
    let next = promises.get(index.saturating_add(1));
    match (promises.get(index), next) {
        (Some(promise), Some(next)) => side.resolve(promise.0, next.1),
        _ => Ok(()),
    }
}

fn call_first(side: &mut Side, promises: &[Made]) -> Result<(), Astray> {
    let (Some(first), Some(last)) = (promises.first(), promises.last()) else {
        return Err(Astray::NoPromise);
    };
    for _ in promises {
        side.call(first.1, Items::new(side.alloc))?;
    }
    let object = side.host(1)?;
    side.resolve(last.0, object)
}

// Each promise is resolved, each call made, and each reaches the object.
fn all_delivered(size: u16) -> Played {
    Played {
        steps: 2 * u64::from(size),
        delivered: u64::from(size),
        ..Played::nothing()
    }
}
