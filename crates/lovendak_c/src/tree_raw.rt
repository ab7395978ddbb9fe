// Trees that C keeps, as their address.
ghost use Rattle.std.specs.Prelude.{◌≡◌, Option, Some, None, true};
ghost use Rattle.lovendak_c_trees.specs.declared.trees.Trees.{Trees as TreesState};
ghost use Rattle.std.specs.Coded.{coded_option};
ghost use Rattle.lovendak_c_trees.specs.contracts.trees.Trees as trees_row;
ghost use Rattle.lovendak_c.specs.TreesHeld.{are_there};

use lovendak_c_box::Loose;
use lovendak_c_trees::Trees;
use std::alloc::Global;
use std::marker::Model;

/// The address of trees, or of none.
#[repr(C)]
#[derive(Drop)]
pub struct TreeRaw {
    at: *mut u8,
    pub ghost trees: { Option TreesState } by { coded_option trees_row.the_row.coded },
}

impl Model for TreeRaw {
    ghost use Rattle.lovendak_c.specs.TreesHeld.{held};

    ghost also_owns = { λ r. held r.at r.trees };
}

impl TreeRaw {
    /// None.
    pub fn none() -> TreeRaw
        ensures { result.trees ≡ None }
    {
        TreeRaw {
            at: std::ptr::null_mut(),
        }
    }

    /// The address of these trees, which are owned by whoever has it.
    pub fn of(trees: Loose<Trees, Global>) -> TreeRaw
        ensures { result.trees ≡ Some trees.value }
    {
        let Loose { at, alloc: _ } = trees;
        TreeRaw { at: at as *mut u8 }
    }

    /// The trees that are there.
    pub fn into_loose(self, alloc: Global) -> Loose<Trees, Global>
        requires { are_there self.trees ≡ true }
        ensures { self.trees ≡ Some result.value }
    {
        let TreeRaw { at } = self;
        Loose {
            at: at as *mut Trees,
            alloc,
        }
    }
}
