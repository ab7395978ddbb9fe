//! Payloads that are read, and what is found in them.
use crate::tests::{cap_at, copied, is_made_of, read, read_text, tree_in, with_zeros};
use capn_wire::{CapAt, Memory, Op, Payload, PayloadFault, Tree, WriteFault};
use std::alloc::Global;
use std::process::Abort;
use std::test::Fail;
use tests_parts::bytes_of;

/// A far pointer in the first of two segments leads to a pad of two words in the second.
const DOUBLE_FAR: &str =
    "01000000 02000000 02000000 00000000 | 0600000001000000 0300000000000000 | 0a00000000000000 0000000000000100";

/// The same, but that the pad is a far pointer to a pad of two words again.
const BAD_FAR: &str =
    "01000000 02000000 02000000 00000000 | 0600000001000000 0300000000000000 | 0e00000000000000 0000000000000100";

const NULL: &str = "00000000 01000000 0000000000000000";

const EMPTY: &str = "00000000 01000000 fcffffff00000000";

const BOOTSTRAP: &str = "00000000 01000000 | 0300000000000000";

const STRUCT_OF_ONE: &str = "00000000 02000000 | 0000000000000100 0300000000000000";

/// A text, how many capabilities go with it, and the number of its fault, or 0.
const READ: [(&str, u32, u16); 22] = [
    (NULL, 0, 0),
    ("ffffffff", 0, 3),
    ("000000", 0, 2),
    ("", 0, 2),
    ("00000000", 0, 2),
    ("00000000 01000000 00000000000000", 0, 2),
    ("00000000 01000000 0000000000000000 00", 0, 5),
    (EMPTY, 0, 0),
    ("00000000 01000000 0000000001000000", 0, 6),
    (DOUBLE_FAR, 1, 0),
    (BAD_FAR, 1, 7),
    (DOUBLE_FAR, 0, 10),
    (
        "00000000 03000000 | 0000000000000100 0000000000000100 f8ffffff00000100",
        0,
        11,
    ),
    (BOOTSTRAP, 1, 0),
    ("00000000 01000000 | 0300000001000000", 1, 10),
    ("00000000 01000000 | 0700000000000000", 1, 9),
    (STRUCT_OF_ONE, 1, 0),
    (
        "00000000 03000000 | 010000000f000000 0800000001000000 0000000000000000",
        0,
        8,
    ),
    (
        "00000000 02000000 | 0100000007000000 fcff030000000000",
        0,
        0,
    ),
    (
        "00000000 02000000 | 0100000007000000 0000040000000000",
        0,
        12,
    ),
    ("00000000 00000000", 0, 6),
    (
        "01000000 01000000 00000000 01000000 | 0000000000000000",
        0,
        5,
    ),
];

/// The number of the fault that reading answers, or 0.
fn fault_of(alloc: Global, bytes: &[u8], caps: u32) -> u16 {
    match Payload::read(alloc, bytes, caps) {
        Ok(_) => 0,
        Err(fault) => fault.code(),
    }
}

#[test]
fn reads_worked_values(rt: HostRuntime) -> Result<(), Fail> {
    for (text, caps, number) in READ {
        let bytes = bytes_of(rt.alloc(), text)?;
        assert!(rt; fault_of(rt.alloc(), &bytes, caps) == number, "at {text}");
    }
    Ok(())
}

#[test]
fn refuses_each_beginning(rt: HostRuntime) -> Result<(), Fail> {
    let bytes = bytes_of(rt.alloc(), DOUBLE_FAR)?;
    assert!(rt; bytes.len() == 48);
    for len in 0..bytes.len() {
        let fault = fault_of(rt.alloc(), &bytes[..len], 1);
        assert!(rt; fault == 2, "of the first {len} bytes");
    }
    Ok(())
}

/// A struct and two lists over the same 32,767 words.
const TWICE: &str = "00000000 02800000 | 0000000000000200 05000000fdff0300 01000000fdff0300";

/// The same over 40,000 words.
const TOO_OFTEN: &str = "00000000 439c0000 | 0000000000000200 0500000005e20400 0100000005e20400";

/// The fault of writing a tree that was read.
fn not_written(alloc: Global, bytes: &[u8]) -> Result<Option<WriteFault>, Fail> {
    let payload = read(alloc, bytes, 0)?;
    let tree = tree_in(alloc, &payload)?;
    Ok(Payload::write(alloc, &tree, 0).err())
}

/// Two lists over the same words: each word is visited once for each. The tree has 65,536 words, and the root pointer is one
/// more than can be written.
#[test]
fn bounds_the_visited_words(rt: HostRuntime) -> Result<(), Fail> {
    let bytes = with_zeros(rt.alloc(), TWICE, 32_767)?;
    assert!(rt; fault_of(rt.alloc(), &bytes, 0) == 0);
    assert!(rt; not_written(rt.alloc(), &bytes)? == Some(WriteFault::TooLarge));
    let bytes = with_zeros(rt.alloc(), TOO_OFTEN, 40_000)?;
    assert!(rt; fault_of(rt.alloc(), &bytes, 0) == 12);
    Ok(())
}

/// A text, how many capabilities go with it, a path from its root, and what is there.
const FOUND: [(&str, u32, &[Op], CapAt); 11] = [
    (NULL, 0, &[], CapAt::Null),
    (EMPTY, 0, &[], CapAt::NotCap),
    (DOUBLE_FAR, 1, &[Op::Field(0)], CapAt::Cap(0)),
    (DOUBLE_FAR, 1, &[Op::Field(1)], CapAt::Null),
    (DOUBLE_FAR, 1, &[], CapAt::NotCap),
    (DOUBLE_FAR, 1, &[Op::Field(0), Op::Field(0)], CapAt::NotCap),
    (DOUBLE_FAR, 1, &[Op::Field(1), Op::Field(5)], CapAt::Null),
    (BOOTSTRAP, 1, &[], CapAt::Cap(0)),
    (BOOTSTRAP, 1, &[Op::Noop; 16], CapAt::Cap(0)),
    (STRUCT_OF_ONE, 1, &[Op::Field(0)], CapAt::Cap(0)),
    (
        STRUCT_OF_ONE,
        1,
        &[Op::Noop, Op::Field(0), Op::Noop],
        CapAt::Cap(0),
    ),
];

#[test]
fn finds_worked_capabilities(rt: HostRuntime) -> Result<(), Fail> {
    for (text, caps, path, found) in FOUND {
        let payload = read_text(rt.alloc(), text, caps)?;
        assert!(rt; cap_at(&payload, path) == found, "at {text}");
    }
    Ok(())
}

/// What stands in each of the two payloads that are made, by a path from the root.
const IN_NULL: &[(&[Op], CapAt)] = &[(&[Op::Noop, Op::Field(0)], CapAt::Null)];

const IN_ROOT: &[(&[Op], CapAt)] = &[
    (&[], CapAt::Cap(0)),
    (&[Op::Noop], CapAt::Cap(0)),
    (&[Op::Noop, Op::Field(0)], CapAt::NotCap),
];

fn has(payload: &Payload, found: &[(&[Op], CapAt)]) -> bool {
    found
        .iter()
        .all(|(path, wanted)| payload.cap_at(path) == *wanted)
}

fn is_null(alloc: Global) -> Result<bool, Memory> {
    let null = Payload::null(alloc)?;
    let bytes = [0, 0, 0, 0, 1, 0, 0, 0, 0, 0, 0, 0, 0, 0, 0, 0];
    Ok(is_made_of(&null, &bytes, 0) && has(&null, IN_NULL))
}

/// The bytes of a payload whose root is capability 0.
const ROOT: [u8; 16] = [0, 0, 0, 0, 1, 0, 0, 0, 3, 0, 0, 0, 0, 0, 0, 0];

fn is_root_capability(alloc: Global) -> Result<bool, Memory> {
    let root = Payload::root_capability(alloc)?;
    Ok(is_made_of(&root, &ROOT, 1) && has(&root, IN_ROOT))
}

/// Each is one word after its head.
#[test]
fn makes_null_and_a_root_capability(rt: HostRuntime) -> Result<(), Memory> {
    assert!(rt; is_null(rt.alloc())?);
    assert!(rt; is_root_capability(rt.alloc())?);
    Ok(())
}

fn is_copied(alloc: Global) -> Result<bool, Fail> {
    let payload = read(alloc, &ROOT, 1)?;
    let copy = copied(alloc, &payload)?;
    let other = read(alloc, &ROOT, 2)?;
    Ok(copy == payload && is_made_of(&copy, &ROOT, 1) && copy != other)
}

#[test]
fn copies_its_bytes_and_capabilities(rt: HostRuntime) -> Result<(), Fail> {
    assert!(rt; is_copied(rt.alloc())?);
    Ok(())
}

/// A struct of the word 7, null, and the numbers 1, 2 and 3 of two bytes.
const NUMBERS: [u8; 48] = [
    0, 0, 0, 0, 5, 0, 0, 0, 0, 0, 0, 0, 1, 0, 2, 0, 7, 0, 0, 0, 0, 0, 0, 0, 0, 0, 0, 0, 0, 0, 0, 0,
    1, 0, 0, 0, 27, 0, 0, 0, 1, 0, 2, 0, 3, 0, 0, 0,
];

fn is_written(alloc: Global, tree: &Tree, bytes: &[u8], caps: u32) -> bool {
    match Payload::write(alloc, tree, caps) {
        Ok(written) => is_made_of(&written, bytes, caps),
        Err(fault) => fault == WriteFault::Memory,
    }
}

/// Whether its tree is written as these bytes, and a copy is the same, if there is memory for them.
fn is_used(alloc: Global, payload: &Payload, bytes: &[u8], caps: u32) -> bool {
    let is_written = match payload.tree(alloc) {
        Ok(tree) => is_written(alloc, &tree, bytes, caps),
        Err(Memory) => true,
    };
    let is_copied = match payload.copy(alloc) {
        Ok(copy) => copy == *payload,
        Err(Memory) => true,
    };
    is_written && is_copied && is_made_of(payload, bytes, caps)
}

/// Holds whichever allocation is refused: run it with `rt try --test --fail-alloc N` too.
#[test]
fn answers_want_of_memory(rt: HostRuntime) {
    let cases: [(&[u8], u32); 2] = [(&ROOT, 1), (&NUMBERS, 0)];
    for (bytes, caps) in cases {
        match Payload::read(rt.alloc(), bytes, caps) {
            Ok(payload) => assert!(rt; is_used(rt.alloc(), &payload, bytes, caps)),
            Err(fault) => assert!(rt; fault == PayloadFault::Memory && fault.code() == 1),
        }
    }
}
