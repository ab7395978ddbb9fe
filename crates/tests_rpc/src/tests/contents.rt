//! Contents, and messages that carry them.
use crate::tests::STAMP;
use capn_trees::{Items as Elements, Pointers, Tree, WriteFault};
use rpc_msg::{
    Call, Descriptor, Exception, ExceptionKind, Items, Op, Path, Payload, QuestionId, Target, Text,
};
use std::alloc::Global;
use std::test::Fail;

/// A struct of these words that points at a tree.
pub fn pointing_at(alloc: Global, words: Vec<u64>, tree: Tree) -> Result<Tree, WriteFault> {
    let mut pointers = Pointers::new(alloc);
    pointers.push(tree)?;
    Ok(Tree::Struct { words, pointers })
}

/// A tree that nests so deep.
pub fn nested(alloc: Global, levels: usize) -> Result<Tree, WriteFault> {
    let mut tree = Tree::Null;
    for _ in 0..levels {
        tree = pointing_at(alloc, Vec::new(alloc), tree)?;
    }
    Ok(tree)
}

/// A list of so many words.
pub fn sevens(alloc: Global, count: usize) -> Result<Tree, WriteFault> {
    let mut words = Vec::new(alloc);
    words.resize(count, 7)?;
    Ok(Tree::List(Elements::Eights(words)))
}

/// A reason of so many bytes.
pub fn reason(alloc: Global, bytes: usize) -> Result<Exception, Fail> {
    let mut text = String::new(alloc);
    for _ in 0..bytes {
        text.push('r')?;
    }
    Ok(Exception {
        kind: ExceptionKind::Failed,
        reason: Text::from_string(text),
    })
}

/// A path of these steps. No test has too many.
pub fn path(steps: &[Op]) -> Path {
    match Path::from_ops(steps) {
        Some(path) => path,
        None => Path::root(),
    }
}

/// The Call of `messages`, with that target and these contents.
pub fn call(target: Target, payload: Payload, descriptors: Items<Descriptor>) -> Call {
    Call {
        question: QuestionId(4_294_967_295),
        target,
        interface: 18_446_744_073_709_551_615,
        method: 65_535,
        payload,
        descriptors,
        stamp: STAMP,
    }
}
