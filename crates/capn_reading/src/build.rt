//! The tree that a place in a message says.
ghost use Rattle.std.specs.Prelude.{◌≡◌, ◌==◌, ◌+◌, ◌*◌, ◌^◌, ◌/◌, ◌%◌, ◌<◌, ◌≤◌, length, drop, map, take, IsOk, IfOk};
ghost use Rattle.capn_trees.specs.Widths.{bits_of};
ghost use Rattle.capn_reading.specs.Segments.{segment_of};
ghost use Rattle.capn_reading.specs.Layouts.{EndsIn, IsWithin};
ghost use Rattle.capn_trees.specs.Trees.{packed};
ghost use Rattle.capn_reading.specs.Reading.{element, elements, pointers_at, structs_at, content_of, reading, Reads, ReadsTo, root_of, tree_read};
ghost use Rattle.capn_trees.specs.Views.{held, view, items_view, trees_view, structs_view};

use crate::layout::{Layout, Row, lay_out};
use crate::message::Message;
use crate::referent::{Referent, follow};
use capn_trees::limits::MOST_LEVELS;
use capn_trees::{Element, Fields, Items, Pointers, Tree, Width, make_fields};
use std::alloc::{AllocError, Global};

fn words_at(
    alloc: Global,
    message: &Message,
    segment: u32,
    start: u32,
    count: u16,
) -> Result<Vec<u64>, AllocError>
    requires { EndsIn (length (segment_of message.now segment)) (start + count) }
    ensures { IfOk result (λ v. v.items ≡ take count (drop start (segment_of message.now segment))) }
{
    let mut words = Vec::with_capacity(alloc, usize::from(count))?;
    for k in 0..u32::from(count) {
        words.push_reserved(message.word(segment, start + k));
    }
    Ok(words)
}

/// An element of so many bits.
pub fn element_at(message: &Message, segment: u32, start: u32, bits: u8, number: u32) -> u64
    requires bits { bits ≤ 64 }
    requires inside { start + number * bits / 64 < length (segment_of message.now segment) }
    requires small { start + number * bits / 64 < 2 ^ 32 }
    ensures same { result ≡ element (drop start (segment_of message.now segment)) bits number }
    ensures fits { result < 2 ^ bits }
{
    let place = u64::from(number) * u64::from(bits);
    let word = message.word(segment, start + (place / 64) as u32);
    let from = word >> (place % 64);
    if bits == 64 { from } else { from % (1 << bits) }
}

fn elements_at<E: Element + Drop>(
    alloc: Global,
    message: &Message,
    segment: u32,
    start: u32,
    count: u32,
) -> Result<Items, AllocError>
    requires some { 0 < E.BITS }
    requires bits { E.BITS ≤ 64 }
    requires within { EndsIn (length (segment_of message.now segment)) (start + (count * E.BITS + 63) / 64) }
    ensures { IfOk result (λ x. items_view x ≡ packed E.BITS (elements (drop start (segment_of message.now segment)) E.BITS 0 count)) }
{
    let mut values = Vec::with_capacity(alloc, count as usize)?;
    for k in 0..count {
        let number = element_at(message, segment, start, E::BITS, k);
        values.push_reserved(E::of_number(number));
    }
    Ok(E::list(values))
}

/// A list of bytes, which stand in the message as they are.
fn bytes_at(
    alloc: Global,
    message: &Message,
    segment: u32,
    start: u32,
    count: u32,
) -> Result<Items, AllocError>
    requires { EndsIn (length (segment_of message.now segment)) (start + (count * 8 + 63) / 64) }
    ensures { IfOk result (λ x. items_view x ≡ packed 8 (elements (drop start (segment_of message.now segment)) 8 0 count)) }
{
    let bytes = Vec::from_slice(alloc, message.bytes(segment, start, count))?;
    Ok(Items::Bytes(bytes))
}

/// The elements of a list without pointers.
fn packed_items(
    alloc: Global,
    message: &Message,
    segment: u32,
    start: u32,
    width: Width,
    count: u32,
) -> Result<Items, AllocError>
    requires { EndsIn (length (segment_of message.now segment)) (start + (count * bits_of width + 63) / 64) }
    ensures { IfOk result (λ x. items_view x ≡ packed (bits_of width) (elements (drop start (segment_of message.now segment)) (bits_of width) 0 count)) }
{
    match width {
        Width::Void => Ok(Items::Void(count)),
        Width::Bit => elements_at::<bool>(alloc, message, segment, start, count),
        Width::Byte => bytes_at(alloc, message, segment, start, count),
        Width::TwoBytes => elements_at::<u16>(alloc, message, segment, start, count),
        Width::FourBytes => elements_at::<u32>(alloc, message, segment, start, count),
        Width::EightBytes => elements_at::<u64>(alloc, message, segment, start, count),
    }
}

/// The tree of a message.
pub fn build_tree(alloc: Global, message: &Message, caps: u32) -> Result<Tree, AllocError>
    requires { IsOk (root_of message.now caps) }
    ensures { IfOk result (λ t. view t ≡ tree_read (root_of message.now caps)) }
{
    build_pointer(alloc, message, caps, 0, 0, MOST_LEVELS)
}

/// The pointer at a place, which reads to a tree. The words that reading visits were counted when the message was read.
#[cycle(build)]
pub fn build_pointer(
    alloc: Global,
    message: &Message,
    caps: u32,
    segment: u32,
    index: u32,
    levels: u32,
) -> Result<Tree, AllocError>
    requires levels { levels ≤ 64 }
    requires there { index < length (segment_of message.now segment) }
    requires reads { Reads (reading message.now caps levels segment index) }
    ensures { IfOk result (λ t. ReadsTo (reading message.now caps levels segment index) (view t)) }
{
    let Ok((referent, _)) = follow(message, caps, segment, index, 0) else {
        unreachable!()
    };
    let content = match referent {
        Referent::Null => return Ok(Tree::Null),
        Referent::Capability(index) => return Ok(Tree::Cap(index)),
        Referent::Content(content) => content,
    };
    if levels == 0 {
        unreachable!()
    }
    let Ok(layout) = lay_out(message, content) else {
        unreachable!()
    };
    build_content(alloc, message, caps, content.segment, layout, levels - 1)
}

/// A content, which reads to a tree.
#[cycle(build)]
fn build_content(
    alloc: Global,
    message: &Message,
    caps: u32,
    segment: u32,
    layout: Layout,
    levels: u32,
) -> Result<Tree, AllocError>
    requires levels { levels ≤ 64 }
    requires within { IsWithin (length (segment_of message.now segment)) layout }
    requires reads { Reads (content_of message.now (reading message.now caps levels) segment layout) }
    ensures { IfOk result (λ t. ReadsTo (content_of message.now (reading message.now caps levels) segment layout) (view t)) }
{
    match layout {
        Layout::Struct {
            start,
            data_words,
            pointer_words,
        } => {
            let words = words_at(alloc, message, segment, start, data_words)?;
            let first = start + u32::from(data_words);
            let count = u32::from(pointer_words);
            let pointers = build_pointers(alloc, message, caps, segment, first, count, levels)?;
            Ok(Tree::Struct { words, pointers })
        }
        Layout::Packed {
            start,
            width,
            count,
        } => {
            let items = packed_items(alloc, message, segment, start, width, count)?;
            Ok(Tree::List(items))
        }
        Layout::Pointers { start, count } => {
            let pointers = build_pointers(alloc, message, caps, segment, start, count, levels)?;
            Ok(Tree::List(Items::Pointers(pointers)))
        }
        Layout::Structs {
            start,
            count,
            data_words,
            pointer_words,
            ..
        } => {
            let row = Row {
                start,
                count,
                data_words,
                pointer_words,
            };
            let items = build_structs(alloc, message, caps, segment, row, levels)?;
            Ok(Tree::List(Items::Structs {
                data_words,
                pointer_words,
                items,
            }))
        }
    }
}

/// Structs, one behind the other, which read to trees.
#[cycle(build)]
fn build_structs(
    alloc: Global,
    message: &Message,
    caps: u32,
    segment: u32,
    row: Row,
    levels: u32,
) -> Result<Vec<Fields>, AllocError>
    requires levels { levels ≤ 64 }
    requires within { EndsIn (length (segment_of message.now segment)) (row.start + row.count * (row.data_words + row.pointer_words)) }
    requires reads { Reads (structs_at message.now (reading message.now caps levels) segment row.data_words row.pointer_words row.start row.count) }
    ensures { IfOk result (λ items. ReadsTo (structs_at message.now (reading message.now caps levels) segment row.data_words row.pointer_words row.start row.count) (structs_view items.items)) }
{
    let mut items = Vec::with_capacity(alloc, row.count as usize)?;
    let mut at = row.start;
    for _ in 0..row.count {
        let words = words_at(alloc, message, segment, at, row.data_words)?;
        let first = at + u32::from(row.data_words);
        let length = u32::from(row.pointer_words);
        let pointers = build_pointers(alloc, message, caps, segment, first, length, levels)?;
        items.push_reserved(make_fields(words, pointers));
        at = first + length;
    }
    Ok(items)
}

/// So many pointers, one behind the other, which read to trees.
#[cycle(build)]
fn build_pointers(
    alloc: Global,
    message: &Message,
    caps: u32,
    segment: u32,
    start: u32,
    count: u32,
    levels: u32,
) -> Result<Pointers, AllocError>
    requires levels { levels ≤ 64 }
    requires within { EndsIn (length (segment_of message.now segment)) (start + count) }
    requires reads { Reads (pointers_at (reading message.now caps levels) segment start count) }
    ensures { IfOk result (λ pointers. ReadsTo (pointers_at (reading message.now caps levels) segment start count) (trees_view (held pointers))) }
{
    let mut trees = Vec::with_capacity(alloc, count as usize)?;
    for k in 0..count {
        let tree = build_pointer(alloc, message, caps, segment, start + k, levels)?;
        trees.push_reserved(tree);
    }
    Ok(Pointers::of(trees))
}
