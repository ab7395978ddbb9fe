//! Targets and paths (`MessageTarget`, `PromisedAnswer`), read and written.
ghost use Rattle.std.specs.Prelude.{◌≡◌, ◌≤◌, length, IfOk};
ghost use Rattle.capn_trees.specs.Views.{view, structs_view};
ghost use Rattle.capn_reading.specs.Reading.{element};
ghost use Rattle.rpc_codec_parts.specs.Blocks.{seen};
ghost use Rattle.rpc_codec_parts.specs.Reading.{Gives};
ghost use Rattle.rpc_codec_parts.specs.Targets.{op_at, ops_at, path_of, path_at, answer_at, target_by, target_at, op_word, steps_of, path_tree, answer_tree, target_tree};
ghost use Rattle.rpc_codec_parts.specs.Fitting.{IsWithin};

use crate::block::Block;
use crate::build::with_one;
use crate::faults::ReadError;
use capn_trees::{Fields, Items, Pointers, Tree, make_fields};
use rpc_msg::{ExportId, Memory, Op, PATH_LIMIT, Path, QuestionId, Target};
use std::alloc::Global;

fn op_of(block: &Block) -> Result<Op, ReadError>
    ensures { Gives (λ op. op) result (op_at (seen block.now.words.now block.now.pointers.now)) }
{
    match block.number::<u16>(0) {
        0 => Ok(Op::Noop),
        1 => Ok(Op::Field(block.number(1))),
        _ => Err(ReadError::Unknown),
    }
}

/// The path of these steps, of which there are few enough.
fn path_of_few(steps: &[Fields]) -> Result<Path, ReadError>
    requires { length steps.now ≤ 16 }
    ensures { Gives (λ path. path) result (ops_at (structs_view steps.now)) }
{
    let mut ops = [Op::Noop; PATH_LIMIT];
    let mut len = 0;
    for step in steps {
        ops[len] = op_of(&Block::of_fields(step))?;
        len += 1;
    }
    match Path::from_ops(&ops[..len]) {
        Some(path) => Ok(path),
        None => unreachable!(),
    }
}

/// The path of these steps.
#[tactic(auto, using(crate::proofs::Lists::long_path, crate::proofs::Lists::short_path))]
fn path_of_steps(steps: &[Fields]) -> Result<Path, ReadError>
    ensures { Gives (λ path. path) result (path_of (structs_view steps.now)) }
{
    if steps.len() > PATH_LIMIT {
        return Err(ReadError::Unknown);
    }
    path_of_few(steps)
}

#[tactic(auto, unfolding(crate::specs::Targets::path_at))]
fn path_in(block: &Block) -> Result<Path, ReadError>
    ensures { Gives (λ path. path) result (path_at (seen block.now.words.now block.now.pointers.now)) }
{
    let steps = block.structs(0)?;
    path_of_steps(steps)
}

/// A question and a path of its results, read from the struct behind a pointer.
#[tactic(auto, unfolding(crate::specs::Targets::answer_at))]
pub fn answer_in(block: &Block, number: usize) -> Result<(QuestionId, Path), ReadError>
    ensures { Gives (λ a. a) result (answer_at number (seen block.now.words.now block.now.pointers.now)) }
{
    let answer = block.block(number)?;
    let path = path_in(&answer)?;
    Ok((QuestionId(answer.number(0)), path))
}

fn target_of(block: &Block) -> Result<Target, ReadError>
    ensures { Gives (λ t. t) result (target_by (element block.now.words.now 16 2) (seen block.now.words.now block.now.pointers.now)) }
{
    match block.number::<u16>(2) {
        0 => Ok(Target::ImportedCap(ExportId(block.number(0)))),
        1 => {
            let (question, path) = answer_in(block, 0)?;
            Ok(Target::PromisedAnswer(question, path))
        }
        _ => Err(ReadError::Unknown),
    }
}

/// A target, read from the struct behind a pointer.
#[tactic(auto, unfolding(crate::specs::Targets::target_at))]
pub fn target_in(block: &Block, number: usize) -> Result<Target, ReadError>
    ensures { Gives (λ t. t) result (target_at number (seen block.now.words.now block.now.pointers.now)) }
{
    let target = block.block(number)?;
    target_of(&target)
}

fn word_of_op(op: Op) -> u64
    ensures { result ≡ op_word op }
{
    match op {
        Op::Noop => 0,
        Op::Field(number) => 1 + 0x1_0000 * u64::from(number),
    }
}

fn steps_in(alloc: Global, path: &[Op]) -> Result<Vec<Fields>, Memory>
    ensures { IfOk result (λ v. structs_view v.items ≡ steps_of path.now) }
{
    let mut steps = Vec::with_capacity(alloc, path.len())?;
    for op in path {
        let words = Vec::from_slice(alloc, &[word_of_op(*op)])?;
        steps.push_reserved(make_fields(words, Pointers::new(alloc)));
    }
    Ok(steps)
}

fn tree_of_path(alloc: Global, path: &Path) -> Result<Tree, Memory>
    ensures { IfOk result (λ t. view t ≡ path_tree path.now) }
{
    let ops = path.as_slice();
    if ops.is_empty() {
        return Ok(Tree::Null);
    }
    let items = steps_in(alloc, ops)?;
    Ok(Tree::List(Items::Structs {
        data_words: 1,
        pointer_words: 0,
        items,
    }))
}

/// A question and a path of its results, as a tree.
pub fn tree_of_answer(alloc: Global, question: QuestionId, path: &Path) -> Result<Tree, Memory>
    ensures { IfOk result (λ t. view t ≡ answer_tree question path.now) }
{
    let path = tree_of_path(alloc, path)?;
    with_one(alloc, &[u64::from(question.0)], path)
}

/// A target, as a tree.
pub fn tree_of_target(alloc: Global, target: &Target) -> Result<Tree, Memory>
    ensures tree { IfOk result (λ t. view t ≡ target_tree target.now) }
    ensures depth { IfOk result (λ t. IsWithin 65 (view t)) }
{
    match target {
        Target::ImportedCap(id) => with_one(alloc, &[u64::from(id.0)], Tree::Null),
        Target::PromisedAnswer(question, path) => {
            let answer = tree_of_answer(alloc, *question, path)?;
            with_one(alloc, &[0x1_0000_0000], answer)
        }
    }
}
