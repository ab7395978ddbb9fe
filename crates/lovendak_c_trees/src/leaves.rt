// What a pointer leads to.
ghost use Rattle.std.specs.Prelude.{◌≡◌, ◌⊎◌, ◌++◌, ◌∷◌, [], map, MatchResult};
ghost use Rattle.std.specs.Str.{IsUtf8};
ghost use Rattle.capn_trees.specs.Trees.{list, packed};
ghost use Rattle.capn_trees.specs.Views.{view};
ghost use Rattle.lovendak_c_trees.specs.Contents.{put_tree};
ghost use Rattle.lovendak_c_trees.specs.Tables.{Does};
ghost use Rattle.lovendak_c_trees.specs.declared.fault.TreeFault.TheVariants as tree_fault;

use crate::fault::TreeFault;
use capn_trees::Tree;
use std::alloc::Global;

/// Has one of these pointers lead to a tree. `Nothing` past the last.
pub(crate) fn put_tree(pointers: &mut Vec<Tree>, pointer: u32, tree: Tree) -> Result<(), TreeFault>
    ensures { Does (put_tree (map view pointers.old.items) pointer (view tree)) result (map view pointers.old.items) (map view pointers.new.items) }
{
    let at = pointer as usize;
    if pointers.len() <= at {
        return Err(TreeFault::Nothing);
    }
    pointers[at] = tree;
    Ok(())
}

/// A text of these bytes. `Malformed` where they are no UTF-8.
pub(crate) fn text_tree(alloc: Global, bytes: &[u8]) -> Result<Tree, TreeFault>
    ensures { MatchResult result (λ t. IsUtf8 bytes.now × (view t ≡ list (packed 8 (bytes.now ++ 0 ∷ []))))
        (λ e. (e ≡ tree_fault.Memory) ⊎ ((e ≡ tree_fault.Malformed) × (¬ (IsUtf8 bytes.now)))) }
{
    let Ok(text) = str::from_utf8(bytes) else {
        return Err(TreeFault::Malformed);
    };
    let tree = Tree::text(alloc, text)?;
    Ok(tree)
}
