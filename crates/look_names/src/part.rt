//! The structs of a request. What is past the end of one is zero or null, and what is no struct is one without words.
ghost use Rattle.std.specs.Prelude.{◌≡◌, [], false, true, None, Some, MatchOption};
ghost use Rattle.std.specs.Str.{is_utf8};
ghost use Rattle.capn_trees.specs.Views.{view, structs_view};
ghost use Rattle.rpc_codec_parts.specs.Blocks.{seen, empty};
ghost use Rattle.look_names.specs.Parts as parts;

use capn_trees::{Fields, Items, Tree};
use rpc_codec_parts::Block;
use std::str;

/// The struct without words.
pub(crate) fn no_words<'t>() -> Block<'t>
    ensures { seen result.words.now result.pointers.now ≡ empty }
{
    Block {
        words: &[],
        pointers: &[],
    }
}

/// The struct that a tree is.
pub(crate) fn part_of(tree: &Tree) -> Block<'_>
    ensures { seen result.words.now result.pointers.now ≡ parts.part_of (view tree.now) }
{
    match tree {
        Tree::Struct { words, pointers } => Block {
            words: words.as_slice(),
            pointers: pointers.as_slice(),
        },
        _ => no_words(),
    }
}

/// The struct that a pointer leads to.
pub(crate) fn part_at<'t>(part: &Block<'t>, pointer: usize) -> Block<'t>
    ensures { seen result.words.now result.pointers.now ≡ parts.part_at (seen part.now.words.now part.now.pointers.now) pointer }
{
    match part.pointer(pointer) {
        Some(tree) => part_of(tree),
        None => no_words(),
    }
}

/// The structs of a list.
fn rows_of(tree: &Tree) -> &[Fields]
    ensures { structs_view result.now ≡ parts.rows_of (view tree.now) }
{
    match tree {
        Tree::List(Items::Structs { items, .. }) => items.as_slice(),
        _ => &[],
    }
}

/// The structs of the list that a pointer leads to.
pub(crate) fn rows_at<'t>(part: &Block<'t>, pointer: usize) -> &'t [Fields]
    ensures { structs_view result.now ≡ parts.rows_at (seen part.now.words.now part.now.pointers.now) pointer }
{
    match part.pointer(pointer) {
        Some(tree) => rows_of(tree),
        None => &[],
    }
}

fn text_of(tree: &Tree) -> &str
    ensures { result.now ≡ parts.text_of (view tree.now) }
{
    match tree {
        Tree::List(Items::Bytes(bytes)) => match text_in(bytes.as_slice()) {
            Some(text) => text,
            None => "",
        },
        _ => "",
    }
}

/// The text that a pointer leads to, or the empty text if it leads to none.
pub(crate) fn text_at<'t>(part: &Block<'t>, pointer: usize) -> &'t str
    ensures { result.now ≡ parts.text_at (seen part.now.words.now part.now.pointers.now) pointer }
{
    match part.pointer(pointer) {
        Some(tree) => text_of(tree),
        None => "",
    }
}

/// The text that these bytes are, if they are UTF-8.
pub(crate) fn utf8_of(bytes: &[u8]) -> Option<&str>
    ensures { MatchOption result (is_utf8 bytes.now ≡ false) (λ text. (is_utf8 bytes.now ≡ true) × (text.now ≡ bytes.now)) }
{
    match str::from_utf8(bytes) {
        Ok(text) => Some(text),
        Err(_) => None,
    }
}

/// The text before the zero that ends bytes, if it is UTF-8.
pub(crate) fn text_in(bytes: &[u8]) -> Option<&str>
    ensures { MatchOption result (parts.text_in bytes.now ≡ None) (λ text. parts.text_in bytes.now ≡ Some text.now) }
{
    if bytes.is_empty() {
        return None;
    }
    let last = bytes.len() - 1;
    if bytes[last] != 0 {
        return None;
    }
    let text = utf8_of(&bytes[..last])?;
    Some(text)
}
