//! Contents without a schema.
use crate::descriptor::write_capability;
use crate::part::text_in;
use crate::text::write_quoted;
use capn_trees::{Element, Fields, Items, Tree};
use rpc_msg::Descriptor;
use std::alloc::AllocError;

/// How many bytes are written of a list of bytes that is no text.
const MOST_BYTES: usize = 32;

/// How deep contents are written: what is below has two dots.
pub(crate) const MOST_LEVELS: u32 = 256;

/// A content without a schema: words and pointers in braces, lists in brackets, capabilities by their descriptors.
pub fn write_bare(
    out: &mut String,
    tree: &Tree,
    descriptors: &[Descriptor],
) -> Result<(), AllocError> {
    write_tree(out, tree, descriptors, MOST_LEVELS)
}

#[cycle(bare)]
pub(crate) fn write_tree(
    out: &mut String,
    tree: &Tree,
    descriptors: &[Descriptor],
    levels: u32,
) -> Result<(), AllocError> {
    if levels == 0 {
        return out.push_str("..");
    }
    match tree {
        Tree::Null => out.push_str("null"),
        Tree::Cap(index) => write_capability(out, *index, descriptors),
        Tree::Struct { words, pointers } => {
            write_struct(out, words, pointers.as_slice(), descriptors, levels - 1)
        }
        Tree::List(items) => write_items(out, items, descriptors, levels - 1),
    }
}

fn write_word(out: &mut String, word: u64) -> Result<(), AllocError> {
    if word < 0x1_0000_0000 {
        write!(out, "{word}")
    } else {
        write!(out, "0x{word:x}")
    }
}

/// Words and pointers in braces.
#[cycle(bare)]
pub(crate) fn write_struct(
    out: &mut String,
    words: &[u64],
    pointers: &[Tree],
    descriptors: &[Descriptor],
    levels: u32,
) -> Result<(), AllocError> {
    let mut between = "{";
    for word in words {
        out.push_str(between)?;
        write_word(out, *word)?;
        between = " ";
    }
    for pointer in pointers {
        out.push_str(between)?;
        write_tree(out, pointer, descriptors, levels)?;
        between = " ";
    }
    if words.is_empty() && pointers.is_empty() {
        out.push('{')?;
    }
    out.push('}')
}

#[cycle(bare)]
fn write_items(
    out: &mut String,
    items: &Items,
    descriptors: &[Descriptor],
    levels: u32,
) -> Result<(), AllocError> {
    match items {
        Items::Void(count) => write!(out, "[{count} voids]"),
        Items::Bits(bits) => write_numbers(out, bits),
        Items::Bytes(bytes) => write_bytes(out, bytes),
        Items::Twos(numbers) => write_numbers(out, numbers),
        Items::Fours(numbers) => write_numbers(out, numbers),
        Items::Eights(numbers) => write_numbers(out, numbers),
        Items::Pointers(pointers) => {
            write_pointers(out, pointers.as_slice(), descriptors, levels)
        }
        Items::Structs { items, .. } => write_structs(out, items, descriptors, levels),
    }
}

fn write_numbers<E: Element>(out: &mut String, numbers: &[E]) -> Result<(), AllocError> {
    out.push('[')?;
    let mut is_first = true;
    for number in numbers {
        if !is_first {
            out.push_str(", ")?;
        }
        is_first = false;
        write!(out, "{}", number.number())?;
    }
    out.push(']')
}

/// A text in quotes, or the first bytes in hexadecimal.
pub(crate) fn write_bytes(out: &mut String, bytes: &[u8]) -> Result<(), AllocError> {
    if let Some(text) = text_in(bytes) {
        return write_quoted(out, text);
    }
    out.push_str("0x")?;
    for byte in bytes.iter().take(MOST_BYTES) {
        write!(out, "{byte:02x}")?;
    }
    if bytes.len() > MOST_BYTES {
        write!(out, "..({} bytes)", bytes.len())?;
    }
    Ok(())
}

#[cycle(bare)]
fn write_pointers(
    out: &mut String,
    pointers: &[Tree],
    descriptors: &[Descriptor],
    levels: u32,
) -> Result<(), AllocError> {
    out.push('[')?;
    let mut is_first = true;
    for pointer in pointers {
        if !is_first {
            out.push_str(", ")?;
        }
        is_first = false;
        write_tree(out, pointer, descriptors, levels)?;
    }
    out.push(']')
}

#[cycle(bare)]
fn write_structs(
    out: &mut String,
    structs: &[Fields],
    descriptors: &[Descriptor],
    levels: u32,
) -> Result<(), AllocError> {
    out.push('[')?;
    let mut is_first = true;
    for fields in structs {
        if !is_first {
            out.push_str(", ")?;
        }
        is_first = false;
        let pointers = fields.pointers.as_slice();
        write_struct(out, &fields.words, pointers, descriptors, levels)?;
    }
    out.push(']')
}
