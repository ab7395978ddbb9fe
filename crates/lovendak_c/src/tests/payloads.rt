// Contents are made and looked into.
use crate::payloads::{lovendak_contents, lovendak_number_at, lovendak_ref_at, lovendak_text_at};
use crate::tests::front;
use std::alloc::Global;
use std::process::Abort;

/// The payload that says null.
pub(crate) const NULL: [u8; 16] = [0, 0, 0, 0, 1, 0, 0, 0, 0, 0, 0, 0, 0, 0, 0, 0];

/// One with so many capabilities and nothing else: null with none. Empty if none is made.
pub(crate) fn payload(alloc: Global, caps: u32, bytes: &mut [u8; 200]) -> &[u8] {
    if caps == 0 {
        bytes[..16].copy_from_slice(&NULL);
        return &bytes[..16];
    }
    let mut len = 0;
    match lovendak_contents(alloc, &[], 0, b"", caps, bytes, &mut len) {
        0 => front(bytes, len),
        _ => &[],
    }
}

fn makes(alloc: Global, room: usize, code: u32, made: &mut [u8; 200]) -> bool {
    let mut len = 0;
    let room = room.min(200);
    lovendak_contents(alloc, &[5, 6], 1, b"six", 0, &mut made[..room], &mut len) == code
        && len == 48
}

fn has_number(alloc: Global, payload: &[u8], index: usize, wanted: u64) -> bool {
    let mut number = 0;
    lovendak_number_at(alloc, payload, 0, index, &mut number) == 0 && number == wanted
}

fn has_text(alloc: Global, payload: &[u8], wanted: &[u8]) -> bool {
    let (mut text, mut len) = ([0; 9], 0);
    lovendak_text_at(alloc, payload, 0, 0, &mut text, &mut len) == 0 && front(&text, len) == wanted
}

#[test]
fn contents_are_made_and_looked_into(rt: HostRuntime) {
    let mut made = [0; 200];
    assert!(rt; makes(rt.alloc(), 8, 103, &mut made));
    assert!(rt; makes(rt.alloc(), 200, 0, &mut made));
    assert!(rt; has_number(rt.alloc(), front(&made, 48), 1, 6));
    assert!(rt; has_text(rt.alloc(), front(&made, 48), b"six"));
}

/// Each text, if there is one, with the bytes of its payload and the pointer of the capability behind it.
const TEXTS: [(u32, &[u8], usize, u16); 3] = [(0, b"", 24, 0), (1, b"", 40, 1), (1, b"six", 40, 1)];

#[test]
fn an_empty_text_has_its_place(rt: HostRuntime) {
    for (has_text, text, bytes, pointer) in TEXTS {
        has_its_place(&rt, rt.alloc(), has_text, text, bytes, pointer);
    }
}

fn has_its_place(
    rt: &impl Abort,
    alloc: Global,
    has_text: u32,
    text: &[u8],
    bytes: usize,
    pointer: u16,
) {
    let (mut made, mut len, mut index) = ([0; 200], 0, 9);
    assert!(rt; lovendak_contents(alloc, &[], has_text, text, 1, &mut made, &mut len) == 0);
    assert!(rt; len == bytes);
    let path = [pointer];
    assert!(rt; lovendak_ref_at(alloc, front(&made, len), 1, &path, &mut index) == 0);
    assert!(rt; index == 0);
}
