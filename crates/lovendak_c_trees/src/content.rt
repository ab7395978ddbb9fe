// What stands under a number.
ghost use Rattle.std.specs.Prelude.{◌≡◌, ◌^◌, ◌<◌, true};
ghost use Rattle.capn_trees.specs.Views.{view};
ghost use Rattle.lovendak_c_trees.specs.Contents.{shown, set_number, set_pointer};
ghost use Rattle.lovendak_c_trees.specs.Numbers.{is_width};
ghost use Rattle.lovendak_c_trees.specs.Tables.{Does};

use crate::fault::TreeFault;
use crate::leaves::put_tree;
use crate::numbers::put_number;
use capn_trees::Tree;
use capn_wire::Payload;

/// A struct that is being built: its data words, and what its pointers lead to.
#[derive(Drop)]
pub struct Draft {
    pub words: Vec<u64>,
    pub pointers: Vec<Tree>,
}

/// What stands under a number.
#[derive(Drop)]
pub enum Content {
    /// A struct.
    Struct(Draft),
    /// A list of pointers, by what they lead to.
    Pointers(Vec<Tree>),
    /// A list of structs, each of so many data words and so many pointers.
    Structs {
        data_words: u16,
        pointer_words: u16,
        items: Vec<Draft>,
    },
    /// A payload that was read.
    Payload(Payload),
    /// Nothing any more: it is a part of another.
    Moved,
}

/// Puts a number into the data words of a struct, at so many times its width. `Nothing` past their end, and in what is no struct.
pub(crate) fn set_number(
    content: &mut Content,
    bits: u32,
    index: u32,
    number: u64,
) -> Result<(), TreeFault>
    requires width { is_width bits ≡ true }
    requires fits { number < 2 ^ bits }
    ensures { Does (set_number bits index number (shown content.old)) result (shown content.old) (shown content.new) }
{
    match content {
        Content::Struct(draft) => put_number(&mut draft.words, bits, index, number),
        _ => Err(TreeFault::Nothing),
    }
}

/// Has a pointer of a struct or of a list lead to a tree. `Nothing` past the last pointer, and in what has none.
pub(crate) fn set_pointer(content: &mut Content, pointer: u32, tree: Tree) -> Result<(), TreeFault>
    ensures { Does (set_pointer pointer (view tree) (shown content.old)) result (shown content.old) (shown content.new) }
{
    match content {
        Content::Struct(draft) => put_tree(&mut draft.pointers, pointer, tree),
        Content::Pointers(pointers) => put_tree(pointers, pointer, tree),
        _ => Err(TreeFault::Nothing),
    }
}
