// The bytes of a content.
ghost use Rattle.std.specs.Prelude.{◌≡◌, ◌⊎◌, true, map, None, Some, IfOk, MatchResult};
ghost use Rattle.capn_trees.specs.Views.{view, held, trees_of, structs_of, structs_view, fields_view};
ghost use Rattle.capn_wire.specs.Payloads.{tree_of as payload_tree};
ghost use Rattle.capn_trees.specs.declared.faults.WriteFault.TheVariants as write_fault;
ghost use Rattle.lovendak_c_trees.specs.Contents.{are_too_deep, fields, in_list, is_too_deep, shown, shown_all, some_too_deep, tree_of};
ghost use Rattle.lovendak_c_trees.specs.Tables.{IsNotTaken, Writes, tree_at};
ghost use Rattle.lovendak_c_trees.specs.declared.fault.TreeFault.TheVariants as tree_fault;

use crate::content::{Content, Draft};
use crate::copies::copy_out;
use crate::fault::TreeFault;
use crate::trees::Trees;
use capn_trees::{Fields, Items, Pointers, Tree, WriteFault, make_fields};
use capn_wire::Payload;
use capn_writing::write_tree;
use std::alloc::{AllocError, Global};

impl Trees {
    /// Hands out the bytes of the tree under a number, and says how many they are: a message of one segment that goes with so many
    /// capabilities. `NoRoom` where there is too little room, and nothing is handed out but the length; `Nothing` where there is no
    /// tree, `CapCount` where a capability of it is not below their number, `Full` where a limit of payloads is passed, `Memory`.
    pub fn write(
        &self,
        alloc: Global,
        at: u32,
        caps: u32,
        out: &mut [u8],
        len: &mut usize,
    ) -> Result<(), TreeFault>
        ensures { Writes (shown_all self.now.contents.items) at caps out.old len.old result out.new len.new }
    {
        let tree = self.copied(alloc, at)?;
        match write_tree(alloc, &tree, caps) {
            Ok(bytes) => copy_out(bytes.as_slice(), out, len),
            Err(fault) => Err(TreeFault::from(fault)),
        }
    }

    /// A copy of the tree under a number. `Nothing` where there is none, `Full` where it nests too deep, `Memory`.
    pub(crate) fn copied(&self, alloc: Global, at: u32) -> Result<Tree, TreeFault>
        ensures { MatchResult result (λ t. tree_at (shown_all self.now.contents.items) at ≡ Some (view t)) (λ e. IsNotTaken (shown_all self.now.contents.items) at e) }
    {
        let Some(content) = self.contents.get(at as usize) else {
            return Err(TreeFault::Nothing);
        };
        copy_content(alloc, content)
    }
}

fn copy_content(alloc: Global, content: &Content) -> Result<Tree, TreeFault>
    ensures { MatchResult result (λ t. tree_of (shown content.now) ≡ Some (view t))
        (λ e. (e ≡ tree_fault.Memory) ⊎ ((e ≡ tree_fault.Nothing) × (tree_of (shown content.now) ≡ None)) ⊎ ((e ≡ tree_fault.Full) × (is_too_deep (shown content.now) ≡ true))) }
{
    match content {
        Content::Struct(draft) => {
            let words = Vec::from_slice(alloc, draft.words.as_slice())?;
            let pointers = copy_pointers(alloc, draft.pointers.as_slice())?;
            Ok(Tree::Struct { words, pointers })
        }
        Content::Pointers(pointers) => {
            let pointers = copy_pointers(alloc, pointers.as_slice())?;
            Ok(Tree::List(Items::Pointers(pointers)))
        }
        Content::Structs {
            data_words,
            pointer_words,
            items,
        } => {
            let items = copy_items(alloc, items.as_slice())?;
            Ok(Tree::List(Items::Structs {
                data_words: *data_words,
                pointer_words: *pointer_words,
                items,
            }))
        }
        Content::Payload(payload) => copy_payload(alloc, payload),
        Content::Moved => Err(TreeFault::Nothing),
    }
}

fn copy_payload(alloc: Global, payload: &Payload) -> Result<Tree, TreeFault>
    ensures { MatchResult result (λ t. view t ≡ payload_tree payload.now) (λ e. e ≡ tree_fault.Memory) }
{
    match payload.tree(alloc) {
        Ok(tree) => Ok(tree),
        Err(_refused) => Err(TreeFault::Memory),
    }
}

/// Copies of these trees.
pub(crate) fn copy_trees(alloc: Global, trees: &[Tree]) -> Result<Vec<Tree>, AllocError>
    ensures { IfOk result (λ copies. map view copies.items ≡ map view trees.now) }
{
    let mut copies = Vec::with_capacity(alloc, trees.len())?;
    for tree in trees {
        copies.push_reserved(tree.copy(alloc)?);
    }
    Ok(copies)
}

fn copy_pointers(alloc: Global, trees: &[Tree]) -> Result<Pointers, WriteFault>
    ensures { MatchResult result (λ pointers. map view (held pointers) ≡ map view trees.now)
        (λ e. (e ≡ write_fault.Memory) ⊎ ((e ≡ write_fault.Depth) × (are_too_deep (map view trees.now) ≡ true))) }
{
    let mut pointers = Pointers::new(alloc);
    for tree in trees {
        pointers.push(tree.copy(alloc)?)?;
    }
    Ok(pointers)
}

fn copy_items(alloc: Global, items: &[Draft]) -> Result<Vec<Fields>, WriteFault>
    ensures { MatchResult result (λ copies. map fields_view copies.items ≡ map (λ d. in_list (fields d)) items.now)
        (λ e. (e ≡ write_fault.Memory) ⊎ ((e ≡ write_fault.Depth) × (some_too_deep (map fields items.now) ≡ true))) }
{
    let mut copies = Vec::with_capacity(alloc, items.len())?;
    for item in items {
        copies.push_reserved(copy_item(alloc, item)?);
    }
    Ok(copies)
}

fn copy_item(alloc: Global, item: &Draft) -> Result<Fields, WriteFault>
    ensures { MatchResult result (λ copy. fields_view copy ≡ in_list (fields item.now))
        (λ e. (e ≡ write_fault.Memory) ⊎ ((e ≡ write_fault.Depth) × (are_too_deep (map view item.now.pointers.items) ≡ true))) }
{
    let words = Vec::from_slice(alloc, item.words.as_slice())?;
    let pointers = copy_pointers(alloc, item.pointers.as_slice())?;
    Ok(make_fields(words, pointers))
}
