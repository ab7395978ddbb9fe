//! Bootstraps, Calls and Finishes, read and written.
ghost use Rattle.std.specs.Prelude.{◌≡◌, ◌≤◌, ◌^◌, IfOk};
ghost use Rattle.capn_trees.specs.Views.{view};
ghost use Rattle.capn_reading.specs.Reading.{element};
ghost use Rattle.rpc_codec_parts.specs.Blocks.{seen};
ghost use Rattle.rpc_codec_parts.specs.Fitting.{IsWithin};
ghost use Rattle.rpc_codec_parts.specs.Reading.{Gives};
ghost use Rattle.rpc_codec.specs.Questions.{bootstrap_at, call_of, call_by, call_at, finish_at, bootstrap_tree, call_tree, flag_bit, finish_tree};

use crate::envelope::Known;
use capn_trees::Tree;
use rpc_codec_parts::{
    Block, ReadError, data_alone, payload_in, target_in, tree_of_payload, tree_of_target, with_one,
    with_three,
};
use rpc_msg::{Call, Finish, Memory, PlainMessage, QuestionId, Stamp};
use std::alloc::Global;

#[tactic(auto, unfolding(crate::specs::Questions::bootstrap_at))]
pub fn bootstrap_in(block: &Block) -> Result<QuestionId, ReadError>
    ensures { Gives (λ q. q) result (bootstrap_at (seen block.now.words.now block.now.pointers.now)) }
{
    let message = block.block(0)?;
    Ok(QuestionId(message.number(0)))
}

/// A Call, wherever its results go.
#[tactic(auto, unfolding(crate::specs::Questions::call_of))]
fn call_fields(alloc: Global, block: &Block, stamp: Stamp) -> Result<Call, ReadError>
    ensures { Gives (λ c. c) result (call_of stamp (seen block.now.words.now block.now.pointers.now)) }
{
    let target = target_in(block, 0)?;
    let (payload, descriptors) = payload_in(alloc, block, 1)?;
    Ok(Call {
        question: QuestionId(block.number(0)),
        target,
        interface: block.number(1),
        method: block.number(2),
        payload,
        descriptors,
        stamp,
    })
}

fn known_call(alloc: Global, block: &Block, stamp: Stamp) -> Result<Known, ReadError>
    ensures { Gives (λ k. k) result (call_by (element block.now.words.now 16 3) stamp (seen block.now.words.now block.now.pointers.now)) }
{
    match block.number::<u16>(3) {
        0 => Ok(Known::Plain(PlainMessage::Call(call_fields(alloc, block, stamp)?))),
        1 => Ok(Known::TailCall(call_fields(alloc, block, stamp)?)),
        _ => Err(ReadError::Unknown),
    }
}

#[tactic(auto, unfolding(crate::specs::Questions::call_at))]
pub fn call_in(alloc: Global, block: &Block, stamp: Stamp) -> Result<Known, ReadError>
    ensures { Gives (λ k. k) result (call_at stamp (seen block.now.words.now block.now.pointers.now)) }
{
    let call = block.block(0)?;
    known_call(alloc, &call, stamp)
}

#[tactic(auto, unfolding(crate::specs::Questions::finish_at))]
pub fn finish_in(block: &Block) -> Result<Finish, ReadError>
    ensures { Gives (λ f. f) result (finish_at (seen block.now.words.now block.now.pointers.now)) }
{
    let finish = block.block(0)?;
    Ok(Finish {
        question: QuestionId(finish.number(0)),
        release_result_caps: finish.default_true(32),
    })
}

pub fn tree_of_bootstrap(alloc: Global, question: QuestionId) -> Result<Tree, Memory>
    ensures tree { IfOk result (λ t. view t ≡ bootstrap_tree question) }
    ensures depth { IfOk result (λ t. IsWithin 66 (view t)) }
{
    with_one(alloc, &[u64::from(question.0)], Tree::Null)
}

pub fn tree_of_call(alloc: Global, call: &Call) -> Result<Tree, Memory>
    ensures tree { IfOk result (λ t. view t ≡ call_tree call.now) }
    ensures depth { IfOk result (λ t. IsWithin 66 (view t)) }
{
    let target = tree_of_target(alloc, &call.target)?;
    let params = tree_of_payload(alloc, &call.payload, &call.descriptors)?;
    let method = call.method;
    let word = u64::from(call.question.0) + 0x1_0000_0000 * u64::from(method);
    with_three(
        alloc,
        &[word, call.interface, 0],
        target,
        params,
        Tree::Null,
    )
}

/// A flag whose default is true.
pub fn bit_of_flag(flag: bool) -> u64
    ensures bit { result ≡ flag_bit flag }
    ensures small { result ≤ 2 ^ 32 }
{
    if flag { 0 } else { 0x1_0000_0000 }
}

pub fn tree_of_finish(alloc: Global, finish: &Finish) -> Result<Tree, Memory>
    ensures tree { IfOk result (λ t. view t ≡ finish_tree finish.now) }
    ensures depth { IfOk result (λ t. IsWithin 66 (view t)) }
{
    let word = u64::from(finish.question.0) + bit_of_flag(finish.release_result_caps);
    data_alone(alloc, &[word])
}
