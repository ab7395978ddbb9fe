// One content becomes a part of another.
ghost use Rattle.std.specs.Prelude.{◌≡◌, ◌⊎◌, None, Some, MatchResult, slice_set};
ghost use Rattle.lovendak_c_trees.specs.Contents.{fields, moved, shown, shown_all};
ghost use Rattle.lovendak_c_trees.specs.Tables.{Appends, IsNotTaken, Pushes, Puts, as_struct, changed, pushed, struct_at};
ghost use Rattle.lovendak_c_trees.specs.declared.fault.TreeFault.TheVariants as tree_fault;

use crate::content::{Content, Draft};
use crate::fault::TreeFault;
use crate::trees::Trees;
use crate::written::copy_trees;
use std::alloc::Global;

impl Trees {
    /// Has a pointer of a struct or of a list lead to the tree under another number, which then stands for nothing. `Nothing` where
    /// there is no such pointer or no such tree, `Full` where it nests too deep, `Memory`.
    pub fn put(&mut self, alloc: Global, at: u32, pointer: u32, from: u32) -> Result<(), TreeFault>
        ensures { Puts at pointer from result (shown_all self.old.contents.items) (shown_all self.new.contents.items) }
    {
        if at == from {
            return Err(TreeFault::Nothing);
        }
        let tree = self.copied(alloc, from)?;
        self.set(at, pointer, tree)?;
        self.clear(from);
        Ok(())
    }

    /// Puts the struct under a number at the end of a list of structs; the number then stands for nothing. `Nothing` where there is no
    /// such list, or no struct of its lengths; `Memory`.
    pub fn push(&mut self, alloc: Global, list: u32, from: u32) -> Result<(), TreeFault>
        ensures { Pushes list from result (shown_all self.old.contents.items) (shown_all self.new.contents.items) }
    {
        if list == from {
            return Err(TreeFault::Nothing);
        }
        let draft = self.copied_draft(alloc, from)?;
        self.append(list, draft)?;
        self.clear(from);
        Ok(())
    }

    // Nothing stands under a number any more.
    fn clear(&mut self, at: u32)
        ensures { shown_all self.new.contents.items ≡ slice_set (shown_all self.old.contents.items) at moved }
    {
        if let Some(content) = self.contents.get_mut(at as usize) {
            *content = Content::Moved;
        }
    }

    // A copy of the struct under a number.
    fn copied_draft(&self, alloc: Global, at: u32) -> Result<Draft, TreeFault>
        ensures { MatchResult result (λ d. struct_at (shown_all self.now.contents.items) at ≡ Some (fields d))
            (λ e. (e ≡ tree_fault.Memory) ⊎ ((e ≡ tree_fault.Nothing) × (struct_at (shown_all self.now.contents.items) at ≡ None))) }
    {
        let Some(content) = self.contents.get(at as usize) else {
            return Err(TreeFault::Nothing);
        };
        copy_draft(alloc, content)
    }

    // Puts a struct at the end of a list.
    fn append(&mut self, list: u32, draft: Draft) -> Result<(), TreeFault>
        ensures { Appends (changed (shown_all self.old.contents.items) list (pushed (fields draft))) result (shown_all self.old.contents.items) (shown_all self.new.contents.items) }
    {
        match self.contents.get_mut(list as usize) {
            Some(content) => append_to(content, draft),
            None => Err(TreeFault::Nothing),
        }
    }
}

fn copy_draft(alloc: Global, content: &Content) -> Result<Draft, TreeFault>
    ensures { MatchResult result (λ d. as_struct (shown content.now) ≡ Some (fields d))
        (λ e. (e ≡ tree_fault.Memory) ⊎ ((e ≡ tree_fault.Nothing) × (as_struct (shown content.now) ≡ None))) }
{
    match content {
        Content::Struct(draft) => {
            let words = Vec::from_slice(alloc, draft.words.as_slice())?;
            let pointers = copy_trees(alloc, draft.pointers.as_slice())?;
            Ok(Draft { words, pointers })
        }
        _ => Err(TreeFault::Nothing),
    }
}

fn append_to(content: &mut Content, draft: Draft) -> Result<(), TreeFault>
    ensures { Appends (pushed (fields draft) (shown content.old)) result (shown content.old) (shown content.new) }
{
    let Content::Structs {
        data_words,
        pointer_words,
        items,
    } = content
    else {
        return Err(TreeFault::Nothing);
    };
    if draft.words.len() != usize::from(*data_words)
        || draft.pointers.len() != usize::from(*pointer_words)
    {
        return Err(TreeFault::Nothing);
    }
    match items.push(draft) {
        Ok(()) => Ok(()),
        Err(_refused) => Err(TreeFault::Memory),
    }
}
