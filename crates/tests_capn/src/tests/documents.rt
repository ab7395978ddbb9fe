//! Messages that are read within a limit of words that their reader gives.
use crate::tests::with_zeros;
use capn_wire::{Document, Kind, MOST_COUNTED, Payload, PayloadFault, Place};
use std::alloc::Global;
use std::process::Abort;
use std::test::Fail;
use tests_parts::bytes_of;

/// A struct of one pointer, to capability 0.
const SMALL: &str = "00000000 02000000 | 0000000000000100 0300000000000000";

/// A list of 70,000 words. With the root pointer there are 70,001.
const LARGE: &str = "00000000 71110100 | 01000000858b0800";

/// A struct of two lists over the same 40,000 words. With its two pointers 80,002 words are visited.
const OFTEN: &str = "00000000 439c0000 | 0000000000000200 0500000005e20400 0100000005e20400";

/// A text, how many zero words come behind it, the limit, and the number of the fault, or 0.
const READ: [(&str, usize, u32, u16); 9] = [
    (SMALL, 0, 2, 0),
    (SMALL, 0, 1, 4),
    (SMALL, 0, MOST_COUNTED, 0),
    (LARGE, 70_000, 70_001, 0),
    (LARGE, 70_000, 70_000, 4),
    (LARGE, 70_000, 65_536, 4),
    (OFTEN, 40_000, 80_002, 0),
    (OFTEN, 40_000, 80_001, 12),
    (OFTEN, 40_000, 65_536, 12),
];

/// The number of the fault that reading with one capability answers, or 0.
fn fault_of(bytes: &[u8], words: u32) -> u16 {
    match Document::read(bytes, 1, words.min(MOST_COUNTED)) {
        Ok(_) => 0,
        Err(fault) => fault.code(),
    }
}

#[test]
fn the_limit_is_what_the_reader_gives(rt: HostRuntime) -> Result<(), Fail> {
    for (number, (text, zeros, words, fault)) in READ.iter().enumerate() {
        let bytes = with_zeros(rt.alloc(), text, *zeros)?;
        assert!(rt; fault_of(&bytes, *words) == *fault, "row {number}");
    }
    Ok(())
}

// No clause says what the small functions here do: a test is proved quicker if nothing is known of what it compares.
fn has_capability(document: &Document) -> bool {
    match document.root().field(0) {
        Some(place) => place.kind() == Kind::Capability(0),
        None => false,
    }
}

fn ends_with(place: &Place, len: u32, last: u64) -> bool {
    place.len() == Some(len) && place.element(len.saturating_sub(1)) == Some(last)
}

/// Is the tree of a document written as these bytes again?
fn is_written_as(alloc: Global, document: &Document, bytes: &[u8]) -> Result<bool, Fail> {
    let tree = document.tree(alloc)?;
    Ok(Payload::write(alloc, &tree, 1)?.bytes() == bytes)
}

fn small_is_looked_into(alloc: Global) -> Result<bool, Fail> {
    let bytes = bytes_of(alloc, SMALL)?;
    let document = Document::read(&bytes, 1, 2)?;
    Ok(has_capability(&document) && is_written_as(alloc, &document, &bytes)?)
}

/// The last of the words of `LARGE` is 7. No payload has so many.
fn large_is_looked_into(alloc: Global) -> Result<bool, Fail> {
    let mut bytes = with_zeros(alloc, LARGE, 69_999)?;
    bytes.extend_from_slice(&[7, 0, 0, 0, 0, 0, 0, 0])?;
    let document = Document::read(&bytes, 0, 70_001)?;
    let fault = Payload::read(alloc, &bytes, 0).err();
    Ok(ends_with(&document.root(), 70_000, 7) && fault == Some(PayloadFault::TooLarge))
}

#[test]
fn documents_are_looked_into(rt: HostRuntime) -> Result<(), Fail> {
    assert!(rt; small_is_looked_into(rt.alloc())?);
    assert!(rt; large_is_looked_into(rt.alloc())?);
    Ok(())
}
