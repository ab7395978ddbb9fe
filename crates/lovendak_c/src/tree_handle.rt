// A handle of trees, which C keeps.
ghost use Rattle.std.specs.Prelude.{◌≡◌, ◌==◌, Some, None, MatchOption};
ghost use Rattle.lovendak_c.specs.TreesHeld.{are_there};
ghost use Rattle.lovendak_c.specs.declared.tree_handle.TheConstants.{MAGIC};

use crate::tree_raw::TreeRaw;
use lovendak_c_box::Loose;
use lovendak_c_trees::Trees;
use std::alloc::Global;
use std::mem;

/// What stands in a handle that has trees, and not by chance in memory that nobody wrote.
const MAGIC: u32 = 0x4c6f_7472;

/// Trees; or none, if the magic number is not in it: only if it is, the address is followed. C keeps it, and neither
/// changes nor copies it.
#[repr(C)]
#[derive(Drop)]
pub struct TreeHandle {
    magic: u32,
    pub raw: TreeRaw,
    pub ghost agrees: { (magic == MAGIC) ≡ are_there raw.trees },
}

impl TreeHandle {
    /// An empty one.
    pub fn none() -> TreeHandle
        ensures { result.raw.trees ≡ None }
    {
        TreeHandle {
            magic: 0,
            raw: TreeRaw::none(),
        }
    }

    /// One that has these trees.
    pub fn of(trees: Box<Trees>) -> TreeHandle
        ensures { result.raw.trees ≡ Some trees.value }
    {
        TreeHandle {
            magic: MAGIC,
            raw: TreeRaw::of(Loose::of(trees)),
        }
    }

    /// Takes the trees out, if it has them.
    pub fn take(&mut self, alloc: Global) -> Option<Box<Trees>>
        ensures taken { MatchOption result (self.old.raw.trees ≡ None) (λ trees. self.old.raw.trees ≡ Some trees.value) }
        ensures left { self.new.raw.trees ≡ None }
    {
        let TreeHandle { magic, raw } = mem::replace(self, TreeHandle::none());
        if magic != MAGIC {
            return None;
        }
        Some(raw.into_loose(alloc).into_box())
    }

    /// Whether it has them.
    pub fn is_full(&self) -> bool
        ensures { result ≡ are_there self.now.raw.trees }
    {
        self.magic == MAGIC
    }
}
