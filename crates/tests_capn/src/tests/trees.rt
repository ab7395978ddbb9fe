//! Trees: read, shown, copied and written.
use crate::tests::{copied, is_made_of, read_text, tree_in};
use capn_wire::laws::write_and_read;
use capn_wire::{Fields, Items, Payload, Pointers, PushError, Tree, WriteFault};
use std::alloc::Global;
use std::test::Fail;
use tests_parts::bytes_of;

/// How many capabilities go with a tree, the bytes that it is read from and written as, and the tree as Rust shows it.
const TREES: [(u32, &str, &str); 11] = [
    (0, "00000000 01000000 0000000000000000", "Null"),
    (
        0,
        "00000000 01000000 fcffffff00000000",
        "Struct { words: [], pointers: Pointers { trees: [] } }",
    ),
    (3, "00000000 01000000 0300000002000000", "Cap(2)"),
    (1, "00000000 01000000 0300000000000000", "Cap(0)"),
    (
        0,
        "00000000 01000000 01000000f8ffffff",
        "List(Void(536870911))",
    ),
    (
        1,
        "00000000 02000000 0000000000000100 0300000000000000",
        "Struct { words: [], pointers: Pointers { trees: [Cap(0)] } }",
    ),
    (
        0,
        "00000000 02000000 | 010000001b000000 0100020003000000",
        "List(Twos([1, 2, 3]))",
    ),
    (
        0,
        "00000000 05000000 | 0000000001000200 0700000000000000 0000000000000000 010000001b000000 0100020003000000",
        "Struct { words: [7], pointers: Pointers { trees: [Null, List(Twos([1, 2, 3]))] } }",
    ),
    (
        1,
        "00000000 06000000 | 0100000027000000 0800000001000100 0100000000000000 0300000000000000 0200000000000000 0000000000000000",
        "List(Structs { data_words: 1, pointer_words: 1, items: [Fields { words: [1], pointers: Pointers { trees: [Cap(0)] } }, Fields { words: [2], pointers: Pointers { trees: [Null] } }] })",
    ),
    (
        0,
        "00000000 05000000 | 0100000016000000 0400000001000000 0500000019000000 0500000000000000 0500000000000000",
        "List(Pointers(Pointers { trees: [Struct { words: [5], pointers: Pointers { trees: [] } }, List(Bits([true, false, true]))] }))",
    ),
    (
        0,
        "00000000 02000000 | 010000001a000000 6162000000000000",
        "List(Bytes([97, 98, 0]))",
    ),
];

fn is_shown(alloc: Global, tree: &Tree, wanted: &str) -> Result<bool, Fail> {
    let mut shown = String::new(alloc);
    write!(shown, "{tree:?}")?;
    Ok(shown.as_str() == wanted)
}

/// A copy is the tree, and neither is null unless both are.
fn is_copied(alloc: Global, tree: &Tree) -> Result<bool, Fail> {
    let copy = tree.copy(alloc)?;
    Ok(copy == *tree && (copy == Tree::Null) == matches!(tree, Tree::Null))
}

/// The bytes that are written for a tree are read again.
fn written_and_read(alloc: Global, tree: &Tree, caps: u32) -> Result<Payload, Fail> {
    Ok(write_and_read(alloc, tree, caps)??)
}

fn is_written(alloc: Global, tree: &Tree, caps: u32, text: &str) -> Result<bool, Fail> {
    let bytes = bytes_of(alloc, text)?;
    let payload = written_and_read(alloc, tree, caps)?;
    Ok(is_made_of(&payload, &bytes, caps))
}

fn tree_read(alloc: Global, text: &str, caps: u32) -> Result<Tree, Fail> {
    let payload = read_text(alloc, text, caps)?;
    tree_in(alloc, &payload)
}

fn is_tree(alloc: Global, tree: &Tree, caps: u32, text: &str, shown: &str) -> Result<bool, Fail> {
    Ok(
        is_shown(alloc, tree, shown)?
            && is_copied(alloc, tree)?
            && is_written(alloc, tree, caps, text)?,
    )
}

fn reads_as(alloc: Global, caps: u32, text: &str, shown: &str) -> Result<bool, Fail> {
    let tree = tree_read(alloc, text, caps)?;
    is_tree(alloc, &tree, caps, text, shown)
}

#[test]
fn worked_values_are_read_and_written(rt: HostRuntime) -> Result<(), Fail> {
    for (caps, text, shown) in TREES {
        let is_tree = reads_as(rt.alloc(), caps, text, shown)?;
        assert!(rt; is_tree, "{shown}");
    }
    Ok(())
}

const EMPTY_STRUCTS: &str = "00000000 02000000 | 0100000007000000 fcff030000000000";

const AB: &str = "00000000 02000000 | 010000001a000000 6162000000000000";

fn is_made(alloc: Global, tree: &Tree, text: &str) -> Result<bool, Fail> {
    Ok(is_copied(alloc, tree)? && is_written(alloc, tree, 0, text)?)
}

fn empty_structs_are_written(alloc: Global) -> Result<bool, Fail> {
    let tree = empty_structs(alloc, 65_535, 0)?;
    is_made(alloc, &tree, EMPTY_STRUCTS)
}

fn is_data(alloc: Global, tree: &Tree, bytes: &[u8]) -> Result<bool, Fail> {
    let data = Tree::data(alloc, bytes)?;
    Ok(data == *tree)
}

fn is_ab(alloc: Global, tree: &Tree) -> Result<bool, Fail> {
    Ok(
        is_made(alloc, tree, AB)?
            && is_data(alloc, tree, &[97, 98, 0])?
            && !is_data(alloc, tree, &[97, 98, 1])?,
    )
}

fn text_is_written(alloc: Global) -> Result<bool, Fail> {
    let text = Tree::text(alloc, "ab")?;
    is_ab(alloc, &text)
}

#[test]
fn made_trees_are_written(rt: HostRuntime) -> Result<(), Fail> {
    assert!(rt; empty_structs_are_written(rt.alloc())?);
    assert!(rt; text_is_written(rt.alloc())?);
    Ok(())
}

/// What structs of one pointer are put around.
#[derive(Clone, Copy, Drop)]
enum Leaf {
    Null,
    Cap,
    Void(u32),
    /// A list of so many words.
    Words(usize),
    /// A list of so many structs of size zero, said to have so many data words.
    Structs(usize, u16),
}

fn empty_structs(alloc: Global, count: usize, data_words: u16) -> Result<Tree, Fail> {
    let mut items = Vec::new(alloc);
    for _ in 0..count {
        let words = Vec::new(alloc);
        let pointers = Pointers::new(alloc);
        items.push(Fields { words, pointers })?;
    }
    Ok(Tree::List(Items::Structs {
        data_words,
        pointer_words: 0,
        items,
    }))
}

fn zeros(alloc: Global, count: usize) -> Result<Tree, Fail> {
    let mut words = Vec::new(alloc);
    words.resize(count, 0)?;
    Ok(Tree::List(Items::Eights(words)))
}

fn tree_of(alloc: Global, leaf: Leaf) -> Result<Tree, Fail> {
    match leaf {
        Leaf::Null => Ok(Tree::Null),
        Leaf::Cap => Ok(Tree::Cap(0)),
        Leaf::Void(count) => Ok(Tree::List(Items::Void(count))),
        Leaf::Words(count) => zeros(alloc, count),
        Leaf::Structs(count, data_words) => empty_structs(alloc, count, data_words),
    }
}

/// A struct without data, with one pointer.
fn pointing_at(alloc: Global, tree: Tree) -> Result<Tree, WriteFault> {
    let mut pointers = Pointers::new(alloc);
    pointers.push(tree)?;
    let words = Vec::new(alloc);
    Ok(Tree::Struct { words, pointers })
}

fn nested(alloc: Global, leaf: Leaf, levels: usize) -> Result<Tree, Fail> {
    let mut tree = tree_of(alloc, leaf)?;
    for _ in 0..levels {
        tree = pointing_at(alloc, tree)?;
    }
    Ok(tree)
}

/// What so many structs are around, how many capabilities go with it, and the number of the fault, or 0.
const LIMITED: [(Leaf, usize, u32, u16); 12] = [
    (Leaf::Void(536_870_912), 0, 0, 4),
    (Leaf::Words(65_535), 0, 0, 0),
    (Leaf::Words(65_536), 0, 0, 4),
    (Leaf::Null, 64, 0, 0),
    (Leaf::Null, 65, 0, 11),
    (Leaf::Structs(65_536, 0), 0, 0, 12),
    (Leaf::Structs(1, 1), 0, 0, 8),
    (Leaf::Cap, 1, 0, 10),
    // the lengths are told before the depth
    (Leaf::Structs(1, 1), 65, 0, 8),
    // the depth is told before the capability that is not there
    (Leaf::Cap, 65, 0, 11),
    (Leaf::Cap, 64, 0, 10),
    (Leaf::Cap, 64, 1, 0),
];

/// The number of the fault that writing answers, or 0.
fn fault_of(alloc: Global, tree: &Tree, caps: u32) -> u16 {
    match Payload::write(alloc, tree, caps) {
        Ok(_) => 0,
        Err(fault) => fault.code(),
    }
}

fn fault_of_nested(alloc: Global, leaf: Leaf, levels: usize, caps: u32) -> Result<u16, Fail> {
    let tree = nested(alloc, leaf, levels)?;
    Ok(fault_of(alloc, &tree, caps))
}

#[test]
fn refuses_to_write(rt: HostRuntime) -> Result<(), Fail> {
    for (number, (leaf, levels, caps, wanted)) in LIMITED.iter().enumerate() {
        let fault = fault_of_nested(rt.alloc(), *leaf, *levels, *caps)?;
        assert!(rt; fault == *wanted, "tree {number}");
    }
    Ok(())
}

/// Whether what is handed back is as deep as it was.
fn is_handed_back(alloc: Global, refused: &PushError) -> Result<bool, Fail> {
    Ok(
        refused.fault == WriteFault::Depth
            && fault_of(alloc, &refused.tree, 0) == 11
            && is_copied(alloc, &refused.tree)?,
    )
}

fn is_refused(alloc: Global, refused: Result<(), PushError>) -> Result<bool, Fail> {
    match &refused {
        Ok(()) => Ok(false),
        Err(refused) => is_handed_back(alloc, refused),
    }
}

fn is_too_deep(alloc: Global) -> Result<bool, Fail> {
    let deepest = nested(alloc, Leaf::Null, 128)?;
    let mut pointers = Pointers::new(alloc);
    let is_refused = is_refused(alloc, pointers.push(deepest))?;
    Ok(is_refused && pointers.as_slice().is_empty())
}

/// The deepest tree is too deep to be written. None that is deeper can be built.
#[test]
fn builds_no_deeper_tree(rt: HostRuntime) -> Result<(), Fail> {
    assert!(rt; is_too_deep(rt.alloc())?);
    Ok(())
}

fn payload_of(alloc: Global, tree: Tree) -> Result<Payload, Fail> {
    written_and_read(alloc, &tree, 0)
}

fn comes_back(alloc: Global, payload: &Payload) -> Result<bool, Fail> {
    let copy = copied(alloc, payload)?;
    let tree = tree_in(alloc, &copy)?;
    let again = payload_of(alloc, tree)?;
    Ok(again == *payload)
}

fn deepest_comes_back(alloc: Global) -> Result<bool, Fail> {
    let tree = nested(alloc, Leaf::Null, 64)?;
    let payload = payload_of(alloc, tree)?;
    comes_back(alloc, &payload)
}

fn largest_comes_back(alloc: Global) -> Result<bool, Fail> {
    let tree = zeros(alloc, 65_535)?;
    let payload = payload_of(alloc, tree)?;
    let copy = copied(alloc, &payload)?;
    Ok(payload.bytes().len() == 8 * 65_537 && copy == payload)
}

#[test]
fn the_deepest_and_the_largest_are_written_and_copied(rt: HostRuntime) -> Result<(), Fail> {
    assert!(rt; deepest_comes_back(rt.alloc())?);
    assert!(rt; largest_comes_back(rt.alloc())?);
    Ok(())
}
