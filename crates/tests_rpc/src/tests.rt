//! Messages and their frames. `codec` goes with refused allocations too (`scripts/refused`): each test there ends in an error that
//! says so, and in no other answer.
mod codec;
mod contents;
mod faults;
mod fits;
mod headings;
mod messages;
mod outgoing;

use rpc_codec::{Envelope, Unknown, decode};
use rpc_msg::{RefId, Stamp, Vat};
use std::alloc::Global;
use std::test::Fail;

const STAMP: Stamp = Stamp {
    vat: Vat::B,
    reference: RefId(3),
    index: 7,
};

fn unknown_of(envelope: Envelope) -> Option<Unknown> {
    match envelope {
        Envelope::Unknown(unknown) => Some(unknown),
        _ => None,
    }
}

/// What of a frame is not understood.
fn unknown_in(alloc: Global, frame: &[u8]) -> Result<Unknown, Fail> {
    let envelope = decode(alloc, frame, STAMP)?;
    match unknown_of(envelope) {
        Some(unknown) => Ok(unknown),
        None => Err("understood")?,
    }
}
