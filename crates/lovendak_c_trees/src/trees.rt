// The contents under their numbers.
ghost use Rattle.std.specs.Prelude.{◌≡◌, ◌⊎◌, true, false, [], ◌∷◌, ◌++◌, map, replicate, IfOk, IfErr, OnOk};
ghost use Rattle.std.specs.Str.{IsUtf8};
ghost use Rattle.capn_trees.specs.Trees.{null, list, packed, capability};
ghost use Rattle.capn_trees.specs.Views.{view};
ghost use Rattle.lovendak_c_trees.specs.Contents.{shown, shown_all, struct, structs, set_pointer};
ghost use Rattle.lovendak_c_trees.specs.Numbers.{are_sized};
ghost use Rattle.lovendak_c_trees.specs.Tables.{Adds, AddsList, Does, Sets, SetsNumber, changed};
ghost use Rattle.lovendak_c_trees.specs.declared.fault.TreeFault.TheVariants as tree_fault;

use crate::content::{Content, Draft, set_number, set_pointer};
use crate::fault::TreeFault;
use crate::leaves::text_tree;
use crate::numbers::{is_sized, numbers_tree};
use capn_trees::Tree;
use std::alloc::{AllocError, Global};

/// As many pointers of a list as a payload has words for, beside that to the list.
const MOST_POINTERS: u32 = 65_535;

/// No content has such a number.
const TOO_MANY: usize = 4_294_967_296;

/// What is being built, under numbers that are counted from 0.
#[derive(Drop)]
pub struct Trees {
    pub contents: Vec<Content>,
}

impl Trees {
    /// None, in a box. `Memory`.
    pub fn boxed(alloc: Global) -> Result<Box<Trees>, TreeFault>
        ensures made { IfOk result (λ made. shown_all made.value.contents.items ≡ []) }
        ensures refused { IfErr result (λ e. e ≡ tree_fault.Memory) }
    {
        let contents = Vec::new(alloc);
        match Box::new(alloc, Trees { contents }) {
            Ok(boxed) => Ok(boxed),
            Err(_refused) => Err(TreeFault::Memory),
        }
    }

    /// Puts a content under the next number. `Memory`, and `Full` where there is no further number.
    pub(crate) fn add(&mut self, content: Content) -> Result<u32, TreeFault>
        ensures { Adds (shown content) result (shown_all self.old.contents.items) (shown_all self.new.contents.items) }
    {
        let number = self.contents.len();
        if number >= TOO_MANY {
            return Err(TreeFault::Full);
        }
        match self.contents.push(content) {
            Ok(()) => Ok(number as u32),
            Err(_refused) => Err(TreeFault::Memory),
        }
    }

    /// Begins a struct of so many data words, which are 0, and so many pointers, which are null: its number. `Memory`, `Full`.
    pub fn add_struct(
        &mut self,
        alloc: Global,
        data_words: u16,
        pointer_words: u16,
    ) -> Result<u32, TreeFault>
        ensures { Adds (struct (record { words = replicate data_words 0; pointers = replicate pointer_words null })) result (shown_all self.old.contents.items) (shown_all self.new.contents.items) }
    {
        let words = Vec::from_elem(alloc, 0, usize::from(data_words))?;
        let pointers = nulls(alloc, u32::from(pointer_words))?;
        self.add(Content::Struct(Draft { words, pointers }))
    }

    /// Begins a list of so many pointers, which are null: its number. `Memory`; `Full` also where there are more than 65,535.
    pub fn add_list(&mut self, alloc: Global, count: u32) -> Result<u32, TreeFault>
        ensures { AddsList count result (shown_all self.old.contents.items) (shown_all self.new.contents.items) }
    {
        if count > MOST_POINTERS {
            return Err(TreeFault::Full);
        }
        let pointers = nulls(alloc, count)?;
        self.add(Content::Pointers(pointers))
    }

    /// Begins a list of structs of so many data words and pointers, of which it has none: its number. `Memory`, `Full`.
    pub fn add_structs(
        &mut self,
        alloc: Global,
        data_words: u16,
        pointer_words: u16,
    ) -> Result<u32, TreeFault>
        ensures { Adds (structs data_words pointer_words []) result (shown_all self.old.contents.items) (shown_all self.new.contents.items) }
    {
        self.add(Content::Structs {
            data_words,
            pointer_words,
            items: Vec::new(alloc),
        })
    }

    /// Puts a number of so many bits into the data of a struct, at so many times its width. `NoSuchNumber` where that is no width or
    /// the number has more bits, `Nothing` past the end of the data and where no struct is being built.
    pub fn set_number(
        &mut self,
        at: u32,
        bits: u32,
        index: u32,
        number: u64,
    ) -> Result<(), TreeFault>
        ensures { SetsNumber at bits index number result (shown_all self.old.contents.items) (shown_all self.new.contents.items) }
    {
        if !is_sized(bits, number) {
            return Err(TreeFault::NoSuchNumber);
        }
        match self.contents.get_mut(at as usize) {
            Some(content) => set_number(content, bits, index, number),
            None => Err(TreeFault::Nothing),
        }
    }

    /// Has a pointer of a struct or of a list lead to a tree. `Nothing` where there is no such pointer.
    pub(crate) fn set(&mut self, at: u32, pointer: u32, tree: Tree) -> Result<(), TreeFault>
        ensures { Does (changed (shown_all self.old.contents.items) at (set_pointer pointer (view tree))) result (shown_all self.old.contents.items) (shown_all self.new.contents.items) }
    {
        match self.contents.get_mut(at as usize) {
            Some(content) => set_pointer(content, pointer, tree),
            None => Err(TreeFault::Nothing),
        }
    }

    /// Has a pointer lead to a text. `Malformed` where the bytes are no UTF-8, `Nothing` where there is no such pointer, `Memory`.
    pub fn set_text(
        &mut self,
        alloc: Global,
        at: u32,
        pointer: u32,
        text: &[u8],
    ) -> Result<(), TreeFault>
        ensures set { Sets (λ e. (e ≡ tree_fault.Memory) ⊎ ((e ≡ tree_fault.Malformed) × (¬ (IsUtf8 text.now)))) at pointer (list (packed 8 (text.now ++ 0 ∷ []))) result (shown_all self.old.contents.items) (shown_all self.new.contents.items) }
        ensures text { OnOk result (IsUtf8 text.now) }
    {
        let tree = text_tree(alloc, text)?;
        self.set(at, pointer, tree)
    }

    /// Has a pointer lead to a list of these bytes. `Nothing` where there is no such pointer, `Memory`.
    pub fn set_data(
        &mut self,
        alloc: Global,
        at: u32,
        pointer: u32,
        bytes: &[u8],
    ) -> Result<(), TreeFault>
        ensures { Sets (λ e. e ≡ tree_fault.Memory) at pointer (list (packed 8 bytes.now)) result (shown_all self.old.contents.items) (shown_all self.new.contents.items) }
    {
        let tree = Tree::data(alloc, bytes)?;
        self.set(at, pointer, tree)
    }

    /// Has a pointer lead to a list of numbers of so many bits. `NoSuchNumber` where that is no width or one of them has more bits,
    /// `Nothing` where there is no such pointer, `Memory`.
    pub fn set_numbers(
        &mut self,
        alloc: Global,
        at: u32,
        pointer: u32,
        bits: u32,
        numbers: &[u64],
    ) -> Result<(), TreeFault>
        ensures set { Sets (λ e. (e ≡ tree_fault.Memory) ⊎ ((e ≡ tree_fault.NoSuchNumber) × (are_sized bits numbers.now ≡ false))) at pointer (list (packed bits numbers.now)) result (shown_all self.old.contents.items) (shown_all self.new.contents.items) }
        ensures sized { OnOk result (are_sized bits numbers.now ≡ true) }
    {
        let tree = numbers_tree(alloc, bits, numbers)?;
        self.set(at, pointer, tree)
    }

    /// Has a pointer lead to the capability of that index. `Nothing` where there is no such pointer.
    pub fn set_capability(&mut self, at: u32, pointer: u32, index: u32) -> Result<(), TreeFault>
        ensures { Sets (λ e. ⊥) at pointer (capability index) result (shown_all self.old.contents.items) (shown_all self.new.contents.items) }
    {
        self.set(at, pointer, Tree::Cap(index))
    }
}

// So many null pointers.
fn nulls(alloc: Global, count: u32) -> Result<Vec<Tree>, AllocError>
    ensures { IfOk result (λ trees. map view trees.items ≡ replicate count null) }
{
    let mut trees = Vec::with_capacity(alloc, count as usize)?;
    for _ in 0..count {
        trees.push_reserved(Tree::Null);
    }
    Ok(trees)
}
