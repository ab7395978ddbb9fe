//! Returns, read and written.
ghost use Rattle.std.specs.Prelude.{◌≡◌, ◌<◌, IfOk};
ghost use Rattle.capn_trees.specs.Views.{view};
ghost use Rattle.capn_reading.specs.Reading.{element};
ghost use Rattle.rpc_codec_parts.specs.Blocks.{seen};
ghost use Rattle.rpc_codec_parts.specs.Fitting.{IsWithin};
ghost use Rattle.rpc_codec_parts.specs.Reading.{Gives};
ghost use Rattle.rpc_codec.specs.Returns.{body_by, understood, return_of, return_by, return_at, body_number, body_tree, return_tree, sent_elsewhere_tree};

use crate::envelope::{Known, SentElsewhere, TakenFromOther};
use crate::questions::bit_of_flag;
use capn_trees::Tree;
use rpc_codec_parts::{
    Block, EnvelopeFault, ReadError, exception_in, payload_in, tree_of_exception, tree_of_payload,
    with_one,
};
use rpc_msg::{Memory, PlainMessage, QuestionId, Return, ReturnBody};
use std::alloc::Global;

fn body_of(alloc: Global, block: &Block) -> Result<ReturnBody, ReadError>
    ensures { Gives (λ b. b) result (body_by (element block.now.words.now 16 3) (seen block.now.words.now block.now.pointers.now)) }
{
    match block.number::<u16>(3) {
        0 => {
            let (payload, descriptors) = payload_in(alloc, block, 0)?;
            Ok(ReturnBody::Results(payload, descriptors))
        }
        1 => Ok(ReturnBody::Exception(exception_in(alloc, block, 0)?)),
        2 => Ok(ReturnBody::Canceled),
        _ => Err(ReadError::Unknown),
    }
}

fn understood_body(alloc: Global, block: &Block) -> Result<ReturnBody, ReadError>
    ensures { Gives (λ b. b) result (understood (body_by (element block.now.words.now 16 3) (seen block.now.words.now block.now.pointers.now))) }
{
    match body_of(alloc, block) {
        Ok(body) => Ok(body),
        Err(ReadError::Unknown) => Err(ReadError::Fault(EnvelopeFault::UnknownReturn)),
        Err(error) => Err(error),
    }
}

#[tactic(auto, unfolding(crate::specs::Returns::return_of))]
fn return_fields(alloc: Global, block: &Block) -> Result<Return, ReadError>
    ensures { Gives (λ r. r) result (return_of (seen block.now.words.now block.now.pointers.now)) }
{
    let body = understood_body(alloc, block)?;
    Ok(Return {
        answer: QuestionId(block.number(0)),
        release_param_caps: block.default_true(32),
        body,
    })
}

fn known_return(alloc: Global, block: &Block) -> Result<Known, ReadError>
    ensures { Gives (λ k. k) result (return_by (element block.now.words.now 16 3) (seen block.now.words.now block.now.pointers.now)) }
{
    match block.number::<u16>(3) {
        3 => Ok(Known::SentElsewhere(SentElsewhere {
            answer: QuestionId(block.number(0)),
            release_param_caps: block.default_true(32),
        })),
        4 => Ok(Known::TakenFromOther(TakenFromOther {
            answer: QuestionId(block.number(0)),
            release_param_caps: block.default_true(32),
            question: QuestionId(block.number(2)),
        })),
        _ => Ok(Known::Plain(PlainMessage::Return(return_fields(alloc, block)?))),
    }
}

#[tactic(auto, unfolding(crate::specs::Returns::return_at))]
pub fn return_in(alloc: Global, block: &Block) -> Result<Known, ReadError>
    ensures { Gives (λ k. k) result (return_at (seen block.now.words.now block.now.pointers.now)) }
{
    let said = block.block(0)?;
    known_return(alloc, &said)
}

fn number_of_body(body: &ReturnBody) -> u64
    ensures number { result ≡ body_number body.now }
    ensures small { result < 3 }
{
    match body {
        ReturnBody::Results(..) => 0,
        ReturnBody::Exception(_) => 1,
        ReturnBody::Canceled => 2,
    }
}

fn tree_of_body(alloc: Global, body: &ReturnBody) -> Result<Tree, Memory>
    ensures tree { IfOk result (λ t. view t ≡ body_tree body.now) }
    ensures depth { IfOk result (λ t. IsWithin 65 (view t)) }
{
    match body {
        ReturnBody::Results(payload, descriptors) => tree_of_payload(alloc, payload, descriptors),
        ReturnBody::Exception(exception) => tree_of_exception(alloc, exception),
        ReturnBody::Canceled => Ok(Tree::Null),
    }
}

pub fn tree_of_return(alloc: Global, said: &Return) -> Result<Tree, Memory>
    ensures tree { IfOk result (λ t. view t ≡ return_tree said.now) }
    ensures depth { IfOk result (λ t. IsWithin 66 (view t)) }
{
    let body = tree_of_body(alloc, &said.body)?;
    let word = u64::from(said.answer.0)
        + bit_of_flag(said.release_param_caps)
        + 0x1_0000_0000_0000 * number_of_body(&said.body);
    with_one(alloc, &[word, 0], body)
}

pub fn tree_of_sent_elsewhere(alloc: Global, said: SentElsewhere) -> Result<Tree, Memory>
    ensures tree { IfOk result (λ t. view t ≡ sent_elsewhere_tree said) }
    ensures depth { IfOk result (λ t. IsWithin 66 (view t)) }
{
    let word = u64::from(said.answer.0)
        + bit_of_flag(said.release_param_caps)
        + 0x1_0000_0000_0000 * 3;
    let tree = with_one(alloc, &[word, 0], Tree::Null)?;
    Ok(tree)
}
