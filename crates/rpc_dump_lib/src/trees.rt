//! Trees as JSON: `null`, `{"cap":n}`, `{"struct":{"pointers":[..],"words":[..]}}`, and lists by what their elements are,
//! as `{"fours":[..]}`. A list of bytes that is a text, with its zero, is `{"text":".."}`.
ghost use Rattle.std.specs.Prelude.{◌≡◌, false, true, None, Some, MatchOption, IfOk, codes, map};
ghost use Rattle.std.specs.Str.{is_utf8};
ghost use Rattle.serde_json.specs.Data.{boolean};
ghost use Rattle.serde_json.specs.View.{view, items_view};
ghost use Rattle.capn_trees.specs.Views.{view as tree_view, trees_view, structs_view, items_view as elements_view};
ghost use Rattle.trace_write.specs.Parts.{nat, list, only};
ghost use Rattle.rpc_dump_lib.specs.Trees.{text_in, bytes_data, words_and_pointers, tree_data, trees_data, elements_data, structs_data};

use capn_trees::{Element, Fields, Items, Tree};
use serde_json::{Map, ToValue, Value, put};
use std::alloc::{AllocError, Global};
use std::str;
use trace_write::{write_number, write_only};

/// The numbers of elements.
fn write_elements<E: Element>(alloc: Global, elements: &[E]) -> Result<Value, AllocError>
    ensures { IfOk result (λ v. view v ≡ list nat (map E.said elements.now)) }
{
    let mut values = Vec::with_capacity(alloc, elements.len())?;
    for element in elements {
        values.push_reserved(Value::from(element.number()));
    }
    Ok(Value::Array(values))
}

/// A list of elements, under their name.
fn write_packed<E: Element>(alloc: Global, name: &str, elements: &[E]) -> Result<Value, AllocError>
    ensures { IfOk result (λ v. view v ≡ only name.now (list nat (map E.said elements.now))) }
{
    let elements = write_elements(alloc, elements)?;
    write_only(alloc, name, elements)
}

fn write_bits(alloc: Global, bits: &[bool]) -> Result<Value, AllocError>
    ensures { IfOk result (λ v. view v ≡ only (codes "bits") (list boolean bits.now)) }
{
    let mut values = Vec::with_capacity(alloc, bits.len())?;
    for bit in bits {
        values.push_reserved(Value::Bool(*bit));
    }
    write_only(alloc, "bits", Value::Array(values))
}

/// The text that these bytes are, if they are UTF-8.
fn utf8_of(bytes: &[u8]) -> Option<&str>
    ensures { MatchOption result (is_utf8 bytes.now ≡ false) (λ text. (is_utf8 bytes.now ≡ true) × (text.now ≡ bytes.now)) }
{
    match str::from_utf8(bytes) {
        Ok(text) => Some(text),
        Err(_) => None,
    }
}

/// The text that these bytes are with a zero behind it, if they are one.
fn text_of(bytes: &[u8]) -> Option<&str>
    ensures { MatchOption result (text_in bytes.now ≡ None) (λ text. text_in bytes.now ≡ Some text.now) }
{
    if bytes.is_empty() {
        return None;
    }
    let last = bytes.len() - 1;
    if bytes[last] != 0 {
        return None;
    }
    let text = utf8_of(&bytes[..last])?;
    Some(text)
}

fn write_bytes(alloc: Global, bytes: &[u8]) -> Result<Value, AllocError>
    ensures { IfOk result (λ v. view v ≡ bytes_data bytes.now) }
{
    if let Some(text) = text_of(bytes) {
        let text = text.to_value(alloc)?;
        return write_only(alloc, "text", text);
    }
    write_packed(alloc, "bytes", bytes)
}

/// The words and pointers of a struct.
fn write_parts(alloc: Global, words: &[u64], pointers: Vec<Value>) -> Result<Value, AllocError>
    ensures { IfOk result (λ v. view v ≡ words_and_pointers words.now (items_view pointers.items)) }
{
    let mut members = Map::new(alloc);
    let words = write_elements(alloc, words)?;
    put(&mut members, alloc, "words", words)?;
    put(&mut members, alloc, "pointers", Value::Array(pointers))?;
    Ok(Value::Object(members))
}

/// What a payload says.
#[cycle(show)]
pub fn write_tree(alloc: Global, tree: &Tree) -> Result<Value, AllocError>
    ensures { IfOk result (λ v. view v ≡ tree_data (tree_view tree.now)) }
{
    match tree {
        Tree::Null => Ok(Value::Null),
        Tree::Struct { words, pointers } => {
            let pointers = write_trees(alloc, pointers.as_slice())?;
            let parts = write_parts(alloc, words.as_slice(), pointers)?;
            write_only(alloc, "struct", parts)
        }
        Tree::List(items) => write_items(alloc, items),
        Tree::Cap(index) => write_number(alloc, "cap", *index),
    }
}

#[cycle(show)]
fn write_trees(alloc: Global, trees: &[Tree]) -> Result<Vec<Value>, AllocError>
    ensures { IfOk result (λ values. items_view values.items ≡ trees_data (trees_view trees.now)) }
{
    let mut values = Vec::with_capacity(alloc, trees.len())?;
    for tree in trees {
        values.push_reserved(write_tree(alloc, tree)?);
    }
    Ok(values)
}

#[cycle(show)]
fn write_structs(alloc: Global, structs: &[Fields]) -> Result<Vec<Value>, AllocError>
    ensures { IfOk result (λ values. items_view values.items ≡ structs_data (structs_view structs.now)) }
{
    let mut values = Vec::with_capacity(alloc, structs.len())?;
    for fields in structs {
        let pointers = write_trees(alloc, fields.pointers.as_slice())?;
        let parts = write_parts(alloc, fields.words.as_slice(), pointers)?;
        values.push_reserved(parts);
    }
    Ok(values)
}

#[cycle(show)]
fn write_items(alloc: Global, items: &Items) -> Result<Value, AllocError>
    ensures { IfOk result (λ v. view v ≡ elements_data (elements_view items.now)) }
{
    match items {
        Items::Void(count) => write_number(alloc, "voids", *count),
        Items::Bits(bits) => write_bits(alloc, bits.as_slice()),
        Items::Bytes(bytes) => write_bytes(alloc, bytes.as_slice()),
        Items::Twos(numbers) => write_packed(alloc, "twos", numbers.as_slice()),
        Items::Fours(numbers) => write_packed(alloc, "fours", numbers.as_slice()),
        Items::Eights(numbers) => write_packed(alloc, "eights", numbers.as_slice()),
        Items::Pointers(pointers) => {
            let trees = write_trees(alloc, pointers.as_slice())?;
            write_only(alloc, "pointers", Value::Array(trees))
        }
        Items::Structs { items, .. } => {
            let structs = write_structs(alloc, items.as_slice())?;
            write_only(alloc, "structs", Value::Array(structs))
        }
    }
}
