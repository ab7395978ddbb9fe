//! Many descriptors in one message, which a flag gives back.

use crate::astray::Astray;
use crate::contents::{null_with, repeated};
use crate::played::Played;
use crate::side::{BEGUN, Side};
use rpc_msg::{Descriptor, ExportId, Items, Path, RefId, TaskId};
use std::alloc::Global;

/// The number of an id times this, of 32 bits, is the id: so they come in no order, and none comes twice.
const SCATTER: u32 = 0x9E37_79B1;

/// A Call of the peer with so many descriptors, of so many ids in turn. The application drops what it got and answers, and the
/// Return's flag gives all of it back.
pub(crate) fn of_params(side: &mut Side, size: u16, ids: u16) -> Result<Played, Astray> {
    let descriptors = hosted(side.alloc, size, ids)?;
    side.calls(2, 0, Path::root(), descriptors)?;
    drop_all(side, size)?;
    let payload = null_with(side.alloc, 0)?;
    side.answer(TaskId(1), payload, Items::new(side.alloc))?;
    Ok(Played {
        flags: 1,
        delivered: BEGUN.delivered + 1,
        ..BEGUN.more(2 + u64::from(size), 1, 0)
    })
}

/// A Return of the peer with so many descriptors, of so many ids in turn. The application calls, drops what it got and finishes
/// the call, and the Finish's flag gives all of it back.
pub(crate) fn of_results(side: &mut Side, size: u16, ids: u16) -> Result<Played, Astray> {
    let call = side.call(RefId(0), Items::new(side.alloc))?;
    let payload = null_with(side.alloc, usize::from(size))?;
    let descriptors = hosted(side.alloc, size, ids)?;
    side.returns(payload, descriptors, false)?;
    drop_all(side, size)?;
    side.finish(call)?;
    Ok(Played {
        flags: 1,
        ..BEGUN.more(3 + u64::from(size), 2, 0)
    })
}

fn hosted(alloc: Global, size: u16, ids: u16) -> Result<Items<Descriptor>, Astray> {
    let mut descriptors = Items::new(alloc);
    for index in 0..size {
        let number = index.checked_rem(ids).unwrap_or(0);
        let id = u32::from(number).wrapping_mul(SCATTER);
        descriptors.push(Descriptor::SenderHosted(ExportId(id)))?;
    }
    Ok(descriptors)
}

// The references that came with them.
fn drop_all(side: &mut Side, size: u16) -> Result<(), Astray> {
    for reference in 0..size {
        side.drop_ref(RefId(u64::from(reference) + 1))?;
    }
    Ok(())
}

/// A call of the application that passes one object so many times; the peer's Return gives all of them back by its flag.
pub(crate) fn of_own(side: &mut Side, size: u16) -> Result<Played, Astray> {
    let passed = side.host(1)?;
    let refs = repeated(side.alloc, passed, size)?;
    side.call(RefId(0), refs)?;
    let payload = null_with(side.alloc, 0)?;
    side.returns(payload, Items::new(side.alloc), true)?;
    Ok(BEGUN.more(2, 1, u64::from(size)))
}
