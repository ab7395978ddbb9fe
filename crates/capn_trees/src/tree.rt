//! What a payload says, as a value of its own.
ghost use Rattle.std.specs.Prelude.{◌≡◌, [], ◌∷◌, ◌++◌, false, if◌then◌else◌, IfErr, IfOk, MatchResult, OnErr, OnOk};
ghost use Rattle.capn_trees.specs.declared.faults.WriteFault.TheVariants as write_faults;
ghost use Rattle.capn_trees.specs.Trees.{list, packed};
ghost use Rattle.capn_trees.specs.Views.{view, held, fields_view, trees_view};
ghost use Rattle.capn_trees.specs.Writable.{is_deeper, are_deeper};

use crate::faults::{PushError, WriteFault};
use crate::limits::MOST_HELD;
use crate::measure::{Measure, measure_tree};
use std::alloc::{AllocError, Global};

/// A struct, a list, a capability or null.
#[cycle(tree)]
#[derive(Debug, PartialEq, Eq, Drop)]
pub enum Tree {
    /// A null pointer.
    Null,
    /// Data words, and pointers behind them.
    Struct { words: Vec<u64>, pointers: Pointers },
    /// A list.
    List(Items),
    /// The capability of that index.
    Cap(u32),
}

/// The elements of a list.
#[cycle(tree)]
#[derive(Debug, PartialEq, Eq, Drop)]
pub enum Items {
    /// So many elements without content.
    Void(u32),
    Bits(Vec<bool>),
    Bytes(Vec<u8>),
    Twos(Vec<u16>),
    Fours(Vec<u32>),
    Eights(Vec<u64>),
    Pointers(Pointers),
    /// Structs, each of so many data words and so many pointers.
    Structs {
        data_words: u16,
        pointer_words: u16,
        items: Vec<Fields>,
    },
}

/// A struct in a list.
#[cycle(tree)]
#[derive(Debug, PartialEq, Eq, Drop)]
pub struct Fields {
    pub words: Vec<u64>,
    pub pointers: Pointers,
}

/// Pointers, by what they lead to. It nests at most 127 levels deep, so no tree nests more than 128.
#[cycle(tree)]
#[derive(Debug, PartialEq, Eq, Drop)]
pub struct Pointers {
    pub(crate) trees: Vec<Tree>,
}

impl Pointers {
    /// No pointers.
    pub fn new(alloc: Global) -> Pointers
        ensures { held result ≡ [] }
    {
        let trees = Vec::new(alloc);
        Pointers { trees }
    }

    /// Pointers to these trees, of which none nests more than 127 levels deep.
    pub fn of(trees: Vec<Tree>) -> Pointers
        requires { are_deeper (trees_view trees.items) 127 ≡ false }
        ensures { held result ≡ trees.items }
    {
        Pointers { trees }
    }

    /// Puts a pointer to a tree at the end. The tree comes back with `Depth` if it nests more than 127 levels deep,
    /// and with `Memory` if a growth was refused; the pointers are then as they were.
    pub fn push(&mut self, tree: Tree) -> Result<(), PushError>
        ensures pushed { OnOk result (held self.new ≡ held self.old ++ tree ∷ []) }
        ensures fault { MatchResult result (λ _. is_deeper (view tree) 127 ≡ false)
            (λ back. back.fault ≡ (if is_deeper (view tree) 127 then write_faults.Depth else write_faults.Memory)) }
        ensures back { IfErr result (λ back. back.tree ≡ tree) }
        ensures same { OnErr result (held self.new ≡ held self.old) }
    {
        let measure = measure_tree(&tree, 0, MOST_HELD, Measure::start(0));
        if measure.is_too_deep {
            let fault = WriteFault::Depth;
            return Err(PushError { fault, tree });
        }
        match self.trees.push(tree) {
            Ok(()) => Ok(()),
            Err(refused) => Err(PushError {
                fault: WriteFault::Memory,
                tree: refused.value,
            }),
        }
    }

    /// What they lead to, in their order.
    pub fn as_slice(&self) -> &[Tree]
        ensures { result.now ≡ held self.now }
    {
        self.trees.as_slice()
    }
}

impl Tree {
    /// A list of these bytes.
    pub fn data(alloc: Global, bytes: &[u8]) -> Result<Tree, AllocError>
        ensures { IfOk result (λ t. view t ≡ list (packed 8 bytes.now)) }
    {
        let bytes = Vec::from_slice(alloc, bytes)?;
        Ok(Tree::List(Items::Bytes(bytes)))
    }

    /// A list of the bytes of this text, and of the zero that ends it.
    pub fn text(alloc: Global, text: &str) -> Result<Tree, AllocError>
        ensures { IfOk result (λ t. view t ≡ list (packed 8 (text.now ++ 0 ∷ []))) }
    {
        let mut bytes = Vec::from_slice(alloc, text.as_bytes())?;
        bytes.push(0)?;
        Ok(Tree::List(Items::Bytes(bytes)))
    }
}

/// A struct in a list, of these words and pointers.
pub fn make_fields(words: Vec<u64>, pointers: Pointers) -> Fields
    ensures { fields_view result ≡ (words.items, trees_view (held pointers)) }
{
    Fields { words, pointers }
}
