//! Structs of an envelope, as trees. None nests near as deep as a tree may, so that only memory can be refused.
ghost use Rattle.std.specs.Prelude.{◌≡◌, ℕ, ◌+◌, false, IfOk};
ghost use Rattle.capn_trees.specs.Trees.{struct, no_trees};
ghost use Rattle.capn_trees.specs.Views.{view, trees_view};
ghost use Rattle.capn_trees.specs.Writable.{are_deeper};
ghost use Rattle.rpc_codec_parts.specs.Blocks.{one, two, three};
ghost use Rattle.rpc_codec_parts.specs.Fitting.{IsWithin};

use capn_trees::{Pointers, Tree};
use rpc_msg::Memory;
use std::alloc::Global;

fn struct_of(alloc: Global, words: &[u64], trees: Vec<Tree>) -> Result<Tree, Memory>
    requires { are_deeper (trees_view trees.items) 127 ≡ false }
    ensures { IfOk result (λ t. view t ≡ struct words.now (trees_view trees.items)) }
{
    let words = Vec::from_slice(alloc, words)?;
    Ok(Tree::Struct {
        words,
        pointers: Pointers::of(trees),
    })
}

/// A struct of data alone.
pub fn data_alone(alloc: Global, words: &[u64]) -> Result<Tree, Memory>
    ensures tree { IfOk result (λ t. view t ≡ struct words.now no_trees) }
    ensures depth { IfOk result (λ t. IsWithin 1 (view t)) }
{
    struct_of(alloc, words, Vec::new(alloc))
}

/// A struct with one pointer.
pub fn with_one(alloc: Global, words: &[u64], tree: Tree) -> Result<Tree, Memory>
    requires { IsWithin 127 (view tree) }
    ensures tree { IfOk result (λ t. view t ≡ struct words.now (one (view tree))) }
    ensures depth { (k : ℕ) → IsWithin k (view tree) → IfOk result (λ t. IsWithin (k + 1) (view t)) }
{
    let mut trees = Vec::with_capacity(alloc, 1)?;
    trees.push_reserved(tree);
    struct_of(alloc, words, trees)
}

/// A struct with two pointers.
pub fn with_two(alloc: Global, words: &[u64], first: Tree, second: Tree) -> Result<Tree, Memory>
    requires first { IsWithin 127 (view first) }
    requires second { IsWithin 127 (view second) }
    ensures tree { IfOk result (λ t. view t ≡ struct words.now (two (view first) (view second))) }
    ensures depth { (k : ℕ) → IsWithin k (view first) → IsWithin k (view second) → IfOk result (λ t. IsWithin (k + 1) (view t)) }
{
    let mut trees = Vec::with_capacity(alloc, 2)?;
    trees.push_reserved(first);
    trees.push_reserved(second);
    struct_of(alloc, words, trees)
}

/// A struct with three pointers.
pub fn with_three(
    alloc: Global,
    words: &[u64],
    first: Tree,
    second: Tree,
    third: Tree,
) -> Result<Tree, Memory>
    requires first { IsWithin 127 (view first) }
    requires second { IsWithin 127 (view second) }
    requires third { IsWithin 127 (view third) }
    ensures tree { IfOk result (λ t. view t ≡ struct words.now (three (view first) (view second) (view third))) }
    ensures depth { (k : ℕ) → IsWithin k (view first) → IsWithin k (view second) → IsWithin k (view third) → IfOk result (λ t. IsWithin (k + 1) (view t)) }
{
    let mut trees = Vec::with_capacity(alloc, 3)?;
    trees.push_reserved(first);
    trees.push_reserved(second);
    trees.push_reserved(third);
    struct_of(alloc, words, trees)
}
