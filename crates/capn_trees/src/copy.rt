//! Trees again, in memory of their own.
ghost use Rattle.std.specs.Prelude.{◌≡◌, IfOk, map};
ghost use Rattle.capn_trees.specs.Trees.{list, packed};
ghost use Rattle.capn_trees.specs.Views.{view, held, items_view, trees_view, structs_view};

use crate::element::Element;
use crate::tree::{Fields, Items, Pointers, Tree};
use std::alloc::{AllocError, Global};

impl Tree {
    /// The same tree, in memory of its own.
    pub fn copy(&self, alloc: Global) -> Result<Tree, AllocError>
        ensures { IfOk result (λ copy. view copy ≡ view self.now) }
    {
        copy_tree(alloc, self)
    }
}

#[cycle(copy)]
fn copy_tree(alloc: Global, tree: &Tree) -> Result<Tree, AllocError>
    ensures { IfOk result (λ copy. view copy ≡ view tree.now) }
{
    match tree {
        Tree::Null => Ok(Tree::Null),
        Tree::Cap(index) => Ok(Tree::Cap(*index)),
        Tree::Struct { words, pointers } => {
            let words = Vec::from_slice(alloc, words.as_slice())?;
            let pointers = copy_pointers(alloc, pointers)?;
            Ok(Tree::Struct { words, pointers })
        }
        Tree::List(items) => copy_list(alloc, items),
    }
}

fn copy_elements<E: Element>(alloc: Global, elements: &[E]) -> Result<Tree, AllocError>
    ensures { IfOk result (λ copy. view copy ≡ list (packed E.BITS (map E.said elements.now))) }
{
    let copy = Vec::from_slice(alloc, elements)?;
    Ok(Tree::List(E::list(copy)))
}

#[cycle(copy)]
fn copy_list(alloc: Global, items: &Items) -> Result<Tree, AllocError>
    ensures { IfOk result (λ copy. view copy ≡ list (items_view items.now)) }
{
    match items {
        Items::Void(count) => Ok(Tree::List(Items::Void(*count))),
        Items::Bits(bits) => copy_elements(alloc, bits.as_slice()),
        Items::Bytes(bytes) => copy_elements(alloc, bytes.as_slice()),
        Items::Twos(twos) => copy_elements(alloc, twos.as_slice()),
        Items::Fours(fours) => copy_elements(alloc, fours.as_slice()),
        Items::Eights(eights) => copy_elements(alloc, eights.as_slice()),
        Items::Pointers(pointers) => {
            let pointers = copy_pointers(alloc, pointers)?;
            Ok(Tree::List(Items::Pointers(pointers)))
        }
        Items::Structs {
            data_words,
            pointer_words,
            items,
        } => {
            let items = copy_structs(alloc, items.as_slice())?;
            Ok(Tree::List(Items::Structs {
                data_words: *data_words,
                pointer_words: *pointer_words,
                items,
            }))
        }
    }
}

#[cycle(copy)]
fn copy_structs(alloc: Global, items: &[Fields]) -> Result<Vec<Fields>, AllocError>
    ensures { IfOk result (λ copy. structs_view copy.items ≡ structs_view items.now) }
{
    let mut copies = Vec::with_capacity(alloc, items.len())?;
    for item in items {
        let words = Vec::from_slice(alloc, item.words.as_slice())?;
        let pointers = copy_pointers(alloc, &item.pointers)?;
        copies.push_reserved(Fields { words, pointers });
    }
    Ok(copies)
}

#[cycle(copy)]
fn copy_pointers(alloc: Global, pointers: &Pointers) -> Result<Pointers, AllocError>
    ensures { IfOk result (λ copy. trees_view (held copy) ≡ trees_view (held pointers.now)) }
{
    let trees = pointers.as_slice();
    let mut copies = Vec::with_capacity(alloc, trees.len())?;
    for tree in trees {
        copies.push_reserved(copy_tree(alloc, tree)?);
    }
    Ok(Pointers { trees: copies })
}
