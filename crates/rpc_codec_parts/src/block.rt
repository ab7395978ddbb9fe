//! A struct of an envelope. What is past the end of its data is zero, and what is past its pointers is null: so are the
//! fields of a struct that an older peer wrote.
ghost use Rattle.std.specs.Prelude.{◌≡◌, ◌==◌, ◌<◌, ◌≤◌, MatchOption};
ghost use Rattle.capn_trees.specs.Trees.{null, pointer_at};
ghost use Rattle.capn_trees.specs.Views.{view, fields_view, trees_view, structs_view};
ghost use Rattle.capn_reading.specs.Reading.{element};
ghost use Rattle.rpc_codec_parts.specs.Reading.{Gives};
ghost use Rattle.rpc_codec_parts.specs.Blocks.{seen, empty, of_fields, block_of, block_at, structs_of, structs_at};

use crate::faults::{EnvelopeFault, ReadError};
use capn_trees::{Element, Fields, Items, Tree};

/// A struct: its data words, and what its pointers lead to.
#[derive(Drop)]
pub struct Block<'t> {
    pub words: &'t [u64],
    pub pointers: &'t [Tree],
}

impl<'t> Block<'t> {
    /// The struct without words.
    fn empty() -> Block<'t>
        ensures { seen result.words.now result.pointers.now ≡ empty }
    {
        Block {
            words: &[],
            pointers: &[],
        }
    }

    /// An element of a list of structs.
    pub fn of_fields(fields: &'t Fields) -> Block<'t>
        ensures { seen result.words.now result.pointers.now ≡ of_fields (fields_view fields.now) }
    {
        Block {
            words: fields.words.as_slice(),
            pointers: fields.pointers.as_slice(),
        }
    }

    /// The struct that a tree is; null is one without words.
    pub fn of_tree(tree: &'t Tree) -> Result<Block<'t>, ReadError>
        ensures { Gives (λ b. seen b.words.now b.pointers.now) result (block_of (view tree.now)) }
    {
        match tree {
            Tree::Null => Ok(Block::empty()),
            Tree::Struct { words, pointers } => Ok(Block {
                words: words.as_slice(),
                pointers: pointers.as_slice(),
            }),
            _ => Err(ReadError::Fault(EnvelopeFault::WrongKind)),
        }
    }

    /// A number in the data, at so many times its own size.
    pub fn number<E: Element>(&self, at: u32) -> E
        requires some { 0 < E.BITS }
        requires bits { E.BITS ≤ 64 }
        ensures { E.said result ≡ element self.now.words.now E.BITS at }
    {
        let place = u64::from(at) * u64::from(E::BITS);
        let word = match self.words.get((place / 64) as usize) {
            Some(word) => *word,
            None => 0,
        };
        let from = word >> (place % 64);
        E::of_number(if E::BITS == 64 {
            from
        } else {
            from % (1 << E::BITS)
        })
    }

    /// A flag whose default is true, so that a bit that is set says false.
    pub fn default_true(&self, at: u32) -> bool
        ensures { result ≡ (element self.now.words.now 1 at == 0) }
    {
        !self.number::<bool>(at)
    }

    /// What a pointer leads to, if there is one of that number; if there is none it would be null.
    pub fn pointer(&self, number: usize) -> Option<&'t Tree>
        ensures { MatchOption result (pointer_at (trees_view self.now.pointers.now) number ≡ null) (λ t. view t.now ≡ pointer_at (trees_view self.now.pointers.now) number) }
    {
        if number < self.pointers.len() {
            Some(&self.pointers[number])
        } else {
            None
        }
    }

    /// The struct that a pointer leads to.
    pub fn block(&self, number: usize) -> Result<Block<'t>, ReadError>
        ensures { Gives (λ b. seen b.words.now b.pointers.now) result (block_at number (seen self.now.words.now self.now.pointers.now)) }
    {
        match self.pointer(number) {
            None => Ok(Block::empty()),
            Some(tree) => Block::of_tree(tree),
        }
    }

    /// The structs of the list that a pointer leads to.
    pub fn structs(&self, number: usize) -> Result<&'t [Fields], ReadError>
        ensures { Gives (λ items. structs_view items.now) result (structs_at number (seen self.now.words.now self.now.pointers.now)) }
    {
        match self.pointer(number) {
            None => Ok(&[]),
            Some(tree) => structs_in(tree),
        }
    }
}

/// The structs of a list.
fn structs_in(tree: &Tree) -> Result<&[Fields], ReadError>
    ensures { Gives (λ items. structs_view items.now) result (structs_of (view tree.now)) }
{
    match tree {
        Tree::Null => Ok(&[]),
        Tree::List(Items::Structs { items, .. }) => Ok(items.as_slice()),
        _ => Err(ReadError::Fault(EnvelopeFault::WrongKind)),
    }
}
