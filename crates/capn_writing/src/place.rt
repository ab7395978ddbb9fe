//! Lays down the words of a tree that can be written, in room that was made for all of them.
ghost use Rattle.std.specs.Prelude.{◌≡◌, ℕ, List, true, ◌+◌, ◌*◌, ◌/◌, ◌^◌, ◌≤◌, ◌<◌, ◌∷◌, ◌++◌, length, map, replicate, take, drop, IfOk, OnOk};
ghost use Rattle.std.specs.Vec.{vec_capacity};
ghost use Rattle.capn_trees.specs.Trees.{struct, list, packed};
ghost use Rattle.capn_trees.specs.Views.{view, fields_view, items_view, trees_view, structs_view};
ghost use Rattle.capn_writing.specs.Placing.{joined, packed_words, struct_word, list_word, capability_word, struct_pointer, offset_of, content_then, placed, placed_all, placed_list, placed_structs, segment_for};
ghost use Rattle.capn_trees.specs.Widths.{AreOf, packed_size};
ghost use Rattle.capn_writing.specs.Fitting.{Fits, FitsAll, FitsList, FitsStructs};
ghost use Rattle.capn_trees.specs.Writable.{parts, parts_of_all, parts_of_structs, words_taken, all_words, are_even};
ghost use Rattle.capn_writing.specs.Laying.{HaveSizes, HasRoom, FillWords, AreNarrow, IsLaid, filled};

use crate::little_endian::read_words;
use capn_trees::{Element, Fields, Items, Tree};
use std::alloc::{AllocError, Global};

/// The word of a struct pointer, or of a tag with the number of elements in the offset's place.
fn word_of_struct(offset: u64, data_words: u64, pointer_words: u64) -> u64
    requires offset { offset < 2 ^ 30 }
    requires data_words { data_words < 2 ^ 16 }
    requires pointer_words { pointer_words < 2 ^ 16 }
    ensures { result ≡ struct_word offset data_words pointer_words }
{
    4 * offset + 0x1_0000_0000 * (data_words + 0x1_0000 * pointer_words)
}

fn word_of_list(offset: u64, size: u64, count: u64) -> u64
    requires offset { offset < 2 ^ 30 }
    requires size { size < 8 }
    requires count { count < 2 ^ 29 }
    ensures { result ≡ list_word offset size count }
{
    1 + 4 * offset + 0x1_0000_0000 * (size + 8 * count)
}

fn word_of_capability(index: u32) -> u64
    ensures { result ≡ capability_word index }
{
    3 + 0x1_0000_0000 * u64::from(index)
}

/// How far a content is from its pointer.
fn distance(at: usize, next: usize) -> u64
    requires ahead { at < next }
    ensures { result ≡ offset_of at next }
{
    (next - (at + 1)) as u64
}

/// The pointer to a struct. One of size zero takes no words, and its offset is -1.
fn pointer_to_struct(at: usize, next: usize, data_words: usize, pointer_words: usize) -> u64
    requires ahead { at < next }
    requires small { next ≤ 65536 }
    requires data_words { data_words ≤ 65535 }
    requires pointer_words { pointer_words ≤ 65535 }
    ensures { result ≡ struct_pointer at next data_words pointer_words }
{
    if data_words + pointer_words == 0 {
        return word_of_struct(0x3fff_ffff, 0, 0);
    }
    word_of_struct(distance(at, next), data_words as u64, pointer_words as u64)
}

/// Elements as one number, the first in the lowest bits.
fn joined_word<E: Element>(elements: &[E]) -> u64
    requires some { E.BITS < 64 }
    requires few { length elements.now * E.BITS ≤ 64 }
    requires fit { AreOf E.BITS (map E.said elements.now) }
    ensures { result ≡ joined E.BITS (map E.said elements.now) }
{
    let mut word: u64 = 0;
    for k in 0..elements.len() {
        word = word * (1 << E::BITS) + elements[elements.len() - 1 - k].number();
    }
    word
}

/// Lays down elements, so many in each word.
fn push_packed<E: Element>(words: &mut Vec<u64>, elements: &[E])
    requires fill { FillWords E.BITS }
    requires small { packed_size E.BITS (length elements.now) ≤ 65536 }
    requires spare { length words.old.items + packed_size E.BITS (length elements.now) ≤ vec_capacity words.old }
    ensures items { words.new.items ≡ words.old.items ++ packed_words E.BITS (packed_size E.BITS (length elements.now)) (map E.said elements.now) }
    ensures capacity { vec_capacity words.old ≤ vec_capacity words.new }
    ensures fit { AreOf E.BITS (map E.said elements.now) }
{
    E::fit(elements);
    let per = 64 / usize::from(E::BITS);
    let mut rest = elements;
    for _ in 0..(elements.len() * usize::from(E::BITS)).div_ceil(64) {
        let (word, behind) = rest.split_at(per.min(rest.len()));
        words.push_reserved(joined_word(word));
        rest = behind;
    }
}

fn push_zeros(words: &mut Vec<u64>, count: usize)
    requires { length words.old.items + count ≤ vec_capacity words.old }
    ensures items { words.new.items ≡ words.old.items ++ replicate count 0 }
    ensures capacity { vec_capacity words.old ≤ vec_capacity words.new }
{
    let Ok(()) = words.resize(words.len() + count, 0) else {
        unreachable!()
    };
}

fn push_eights(eights: &[u64], words: &mut Vec<u64>)
    requires { length words.old.items + length eights.now ≤ vec_capacity words.old }
    ensures items { words.new.items ≡ words.old.items ++ packed_words 64 (packed_size 64 (length eights.now)) eights.now }
    ensures capacity { vec_capacity words.old ≤ vec_capacity words.new }
    ensures fit { AreOf 64 eights.now }
{
    let Ok(()) = words.extend_from_slice(eights) else {
        unreachable!()
    };
}

/// The pointer at word `at` to a list of elements, which are laid down behind all words.
fn place_packed<E: Element>(elements: &[E], size: u64, at: usize, words: &mut Vec<u64>) -> u64
    requires ahead { at < length words.old.items }
    requires narrow { AreNarrow E.BITS size }
    requires room { HasRoom (packed_size E.BITS (length elements.now)) (length words.old.items) (vec_capacity words.old) }
    ensures laid { IsLaid (placed_list (packed E.BITS (map E.said elements.now)) at (length words.old.items)) result words.old.items words.new.items (vec_capacity words.old) (vec_capacity words.new) }
    ensures fit { AreOf E.BITS (map E.said elements.now) }
{
    let next = words.len();
    push_packed(words, elements);
    word_of_list(distance(at, next), size, elements.len() as u64)
}

/// Lays down bytes, eight in each word.
fn push_bytes(bytes: &[u8], words: &mut Vec<u64>)
    requires small { packed_size 8 (length bytes.now) ≤ 65536 }
    requires spare { length words.old.items + packed_size 8 (length bytes.now) ≤ vec_capacity words.old }
    ensures items { words.new.items ≡ words.old.items ++ packed_words 8 (packed_size 8 (length bytes.now)) bytes.now }
    ensures capacity { vec_capacity words.old ≤ vec_capacity words.new }
    ensures fit { AreOf 8 bytes.now }
{
    u8::fit(bytes);
    let (whole, rest) = bytes.split_at(bytes.len() / 8 * 8);
    let next = words.len();
    push_zeros(words, whole.len() / 8);
    read_words(whole, words, next);
    push_packed(words, rest);
}

/// The pointer at word `at` to a list of bytes, which are laid down behind all words.
fn place_bytes(bytes: &[u8], at: usize, words: &mut Vec<u64>) -> u64
    requires ahead { at < length words.old.items }
    requires room { HasRoom (packed_size 8 (length bytes.now)) (length words.old.items) (vec_capacity words.old) }
    ensures laid { IsLaid (placed_list (packed 8 bytes.now) at (length words.old.items)) result words.old.items words.new.items (vec_capacity words.old) (vec_capacity words.new) }
    ensures fit { AreOf 8 bytes.now }
{
    let next = words.len();
    push_bytes(bytes, words);
    word_of_list(distance(at, next), 2, bytes.len() as u64)
}

/// The pointer at word `at` to a list of words, which are laid down behind all words.
fn place_eights(eights: &[u64], at: usize, words: &mut Vec<u64>) -> u64
    requires ahead { at < length words.old.items }
    requires room { HasRoom (packed_size 64 (length eights.now)) (length words.old.items) (vec_capacity words.old) }
    ensures laid { IsLaid (placed_list (packed 64 eights.now) at (length words.old.items)) result words.old.items words.new.items (vec_capacity words.old) (vec_capacity words.new) }
    ensures fit { AreOf 64 eights.now }
{
    let next = words.len();
    push_eights(eights, words);
    word_of_list(distance(at, next), 5, eights.len() as u64)
}

/// Puts words into the place of others.
fn put(words: &mut Vec<u64>, at: usize, others: &[u64])
    requires { at + length others.now ≤ length words.old.items }
    ensures items { words.new.items ≡ take at words.old.items ++ (others.now ++ drop (at + length others.now) words.old.items) }
    ensures capacity { vec_capacity words.new ≡ vec_capacity words.old }
{
    words[at..at + others.len()].copy_from_slice(others);
}

/// The pointer at word `at` to a tree, whose content is laid down behind all words with all that it leads to.
#[cycle(place)]
fn place_tree(tree: &Tree, at: usize, words: &mut Vec<u64>) -> u64
    requires ahead { at < length words.old.items }
    requires sizes { HaveSizes (parts (view tree.now) 0) }
    requires room { HasRoom (all_words words_taken (parts (view tree.now) 0)) (length words.old.items) (vec_capacity words.old) }
    ensures laid { IsLaid (placed (view tree.now) at (length words.old.items)) result words.old.items words.new.items (vec_capacity words.old) (vec_capacity words.new) }
    ensures fits { Fits (view tree.now) }
{
    match tree {
        Tree::Null => 0,
        Tree::Cap(index) => word_of_capability(*index),
        Tree::Struct {
            words: data,
            pointers,
        } => {
            let next = words.len();
            let trees = pointers.as_slice();
            push_zeros(words, data.len() + trees.len());
            place_fields(trees, data, next, words);
            pointer_to_struct(at, next, data.len(), trees.len())
        }
        Tree::List(items) => place_items(items, at, words),
    }
}

/// The pointer at word `at` to a list.
#[cycle(place)]
fn place_items(items: &Items, at: usize, words: &mut Vec<u64>) -> u64
    requires ahead { at < length words.old.items }
    requires sizes { HaveSizes (parts (list (items_view items.now)) 0) }
    requires room { HasRoom (all_words words_taken (parts (list (items_view items.now)) 0)) (length words.old.items) (vec_capacity words.old) }
    ensures laid { IsLaid (placed_list (items_view items.now) at (length words.old.items)) result words.old.items words.new.items (vec_capacity words.old) (vec_capacity words.new) }
    ensures fits { FitsList (items_view items.now) }
{
    match items {
        Items::Void(count) => word_of_list(distance(at, words.len()), 0, u64::from(*count)),
        Items::Bits(bits) => place_packed(bits.as_slice(), 1, at, words),
        Items::Bytes(bytes) => place_bytes(bytes.as_slice(), at, words),
        Items::Twos(twos) => place_packed(twos.as_slice(), 3, at, words),
        Items::Fours(fours) => place_packed(fours.as_slice(), 4, at, words),
        Items::Eights(eights) => place_eights(eights.as_slice(), at, words),
        Items::Pointers(pointers) => place_pointers(pointers.as_slice(), at, words),
        Items::Structs {
            data_words,
            pointer_words,
            items,
        } => place_list(items, *data_words, *pointer_words, at, words),
    }
}

/// The pointer at word `at` to a list of pointers, which are laid down behind all words with all that they lead to.
#[cycle(place)]
fn place_pointers(trees: &[Tree], at: usize, words: &mut Vec<u64>) -> u64
    requires ahead { at < length words.old.items }
    requires sizes { HaveSizes (parts_of_all (trees_view trees.now) 0) }
    requires room { HasRoom (length trees.now + all_words words_taken (parts_of_all (trees_view trees.now) 0)) (length words.old.items) (vec_capacity words.old) }
    ensures laid { IsLaid (
      list_word (offset_of at (length words.old.items)) 6 (length trees.now),
      content_then (placed_all (trees_view trees.now) (length words.old.items) (length words.old.items + length trees.now)),
    ) result words.old.items words.new.items (vec_capacity words.old) (vec_capacity words.new) }
    ensures fits { FitsAll (trees_view trees.now) }
{
    let next = words.len();
    push_zeros(words, trees.len());
    place_trees(trees, next, words);
    word_of_list(distance(at, next), 6, trees.len() as u64)
}

/// The pointer at word `at` to a list of structs. A tag and the structs are laid down behind all words, with all that
/// they lead to.
#[cycle(place)]
fn place_list(
    items: &[Fields],
    data_words: u16,
    pointer_words: u16,
    at: usize,
    words: &mut Vec<u64>,
) -> u64
    requires ahead { at < length words.old.items }
    requires even { are_even data_words pointer_words (structs_view items.now) ≡ true }
    requires sizes { HaveSizes (parts_of_structs (structs_view items.now) 0) }
    requires few { length items.now < 2 ^ 30 }
    requires room { HasRoom (length items.now * (data_words + pointer_words) + 1 + all_words words_taken (parts_of_structs (structs_view items.now) 0)) (length words.old.items) (vec_capacity words.old) }
    ensures laid { IsLaid (
      list_word (offset_of at (length words.old.items)) 7 (length items.now * (data_words + pointer_words)),
      struct_word (length items.now) data_words pointer_words
          ∷ content_then (placed_structs (structs_view items.now) (length words.old.items + 1) (length words.old.items + 1 + length items.now * (data_words + pointer_words))),
    ) result words.old.items words.new.items (vec_capacity words.old) (vec_capacity words.new) }
    ensures fits { FitsStructs (structs_view items.now) }
{
    let next = words.len();
    let size = items.len() * (usize::from(data_words) + usize::from(pointer_words));
    let tag = word_of_struct(
        items.len() as u64,
        u64::from(data_words),
        u64::from(pointer_words),
    );
    words.push_reserved(tag);
    push_zeros(words, size);
    place_structs(items, data_words, pointer_words, next + 1, words);
    word_of_list(distance(at, next), 7, size as u64)
}

/// Structs in their places from word `at` on, and what they lead to behind all words.
#[cycle(place)]
fn place_structs(
    items: &[Fields],
    data_words: u16,
    pointer_words: u16,
    at: usize,
    words: &mut Vec<u64>,
)
    requires even { are_even data_words pointer_words (structs_view items.now) ≡ true }
    requires inside { at + length items.now * (data_words + pointer_words) ≤ length words.old.items }
    requires sizes { HaveSizes (parts_of_structs (structs_view items.now) 0) }
    requires room { HasRoom (all_words words_taken (parts_of_structs (structs_view items.now) 0)) (length words.old.items) (vec_capacity words.old) }
    ensures placed { words.new.items ≡ filled words.old.items at (placed_structs (structs_view items.now) at (length words.old.items)) }
    ensures capacity { vec_capacity words.old ≤ vec_capacity words.new }
    ensures fits { FitsStructs (structs_view items.now) }
{
    let mut slot = at;
    for item in items {
        place_fields(item.pointers.as_slice(), &item.words, slot, words);
        slot += usize::from(data_words) + usize::from(pointer_words);
    }
}

/// A struct in its place from word `at` on, its data section first, and what it leads to behind all words.
#[cycle(place)]
fn place_fields(pointers: &[Tree], section: &[u64], at: usize, words: &mut Vec<u64>)
    requires inside { at + length section.now + length pointers.now ≤ length words.old.items }
    requires sizes { HaveSizes (parts_of_all (trees_view pointers.now) 0) }
    requires room { HasRoom (all_words words_taken (parts_of_all (trees_view pointers.now) 0)) (length words.old.items) (vec_capacity words.old) }
    ensures placed { words.new.items ≡ filled words.old.items at (
      section.now ++ (placed_all (trees_view pointers.now) (at + length section.now) (length words.old.items)).0,
      (placed_all (trees_view pointers.now) (at + length section.now) (length words.old.items)).1,
    ) }
    ensures capacity { vec_capacity words.old ≤ vec_capacity words.new }
    ensures fits { FitsAll (trees_view pointers.now) }
{
    put(words, at, section);
    place_trees(pointers, at + section.len(), words);
}

/// Pointers in their places from word `at` on, and what they lead to behind all words.
#[cycle(place)]
fn place_trees(trees: &[Tree], at: usize, words: &mut Vec<u64>)
    requires inside { at + length trees.now ≤ length words.old.items }
    requires sizes { HaveSizes (parts_of_all (trees_view trees.now) 0) }
    requires room { HasRoom (all_words words_taken (parts_of_all (trees_view trees.now) 0)) (length words.old.items) (vec_capacity words.old) }
    ensures placed { words.new.items ≡ filled words.old.items at (placed_all (trees_view trees.now) at (length words.old.items)) }
    ensures capacity { vec_capacity words.old ≤ vec_capacity words.new }
    ensures fits { FitsAll (trees_view trees.now) }
{
    let mut slot = at;
    for tree in trees {
        let word = place_tree(tree, slot, words);
        words[slot] = word;
        slot += 1;
    }
}

/// The segment of a tree that takes so many words.
pub fn place(alloc: Global, tree: &Tree, count: u32) -> Result<Vec<u64>, AllocError>
    requires sizes { HaveSizes (parts (view tree.now) 0) }
    requires room { 1 + all_words words_taken (parts (view tree.now) 0) ≤ 65536 }
    requires count { count ≡ 1 + all_words words_taken (parts (view tree.now) 0) }
    ensures placed { IfOk result (λ words. words.items ≡ segment_for (view tree.now)) }
    ensures fits { OnOk result (Fits (view tree.now)) }
{
    let mut words = Vec::with_capacity(alloc, count as usize)?;
    words.push_reserved(0);
    let root = place_tree(tree, 0, &mut words);
    words[0] = root;
    Ok(words)
}
