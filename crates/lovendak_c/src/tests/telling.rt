// What a handle tells.
use crate::events::lovendak_next_event;
use crate::handle::Handle;
use crate::payloads::lovendak_ref_at;
use crate::tests::{SILENT, front};
use lovendak_c_desk::Notice;
use std::alloc::Global;

/// The next event, for whose bytes there is so much room.
#[derive(Clone, Copy)]
pub(crate) struct Tells {
    pub(crate) room: usize,
    pub(crate) code: u32,
    /// What it says, except for the number of bytes.
    pub(crate) notice: Notice,
    pub(crate) bytes: Bytes,
    pub(crate) refs: &'static [u64],
}

/// The bytes that come with an event.
#[derive(Clone, Copy)]
pub(crate) enum Bytes {
    These(&'static [u8]),
    /// A payload that is the first capability.
    Cap,
    /// So many, for which there is too little room.
    Many(usize),
    Any,
}

pub(crate) const NONE: Tells = Tells {
    room: 200,
    code: 104,
    notice: SILENT,
    bytes: Bytes::Any,
    refs: &[],
};

pub(crate) fn is_told(alloc: Global, vat: &mut Handle, wanted: &Tells) -> bool {
    let (mut event, mut bytes, mut refs) = (Notice::new(), [0; 200], [99; 4]);
    let room = wanted.room.min(200);
    let code = lovendak_next_event(alloc, vat, &mut event, &mut bytes[..room], &mut refs);
    let len = event.payload_len;
    event.payload_len = 0;
    code == wanted.code
        && event == wanted.notice
        && has_bytes(alloc, &bytes, len, wanted.bytes)
        && refs.starts_with(wanted.refs)
}

fn has_bytes(alloc: Global, bytes: &[u8], len: usize, wanted: Bytes) -> bool {
    match wanted {
        Bytes::These(wanted) => front(bytes, len) == wanted,
        Bytes::Cap => is_cap(alloc, front(bytes, len)),
        Bytes::Many(wanted) => len == wanted,
        Bytes::Any => true,
    }
}

fn is_cap(alloc: Global, bytes: &[u8]) -> bool {
    let mut index = 9;
    lovendak_ref_at(alloc, bytes, 1, &[], &mut index) == 0 && index == 0
}
