//! Payloads (`Payload`), read and written: a content that stands by itself, and its descriptors.
ghost use Rattle.std.specs.Prelude.{◌≡◌, IfOk};
ghost use Rattle.capn_trees.specs.Trees.{pointer_at};
ghost use Rattle.capn_trees.specs.Views.{view, trees_view};
ghost use Rattle.rpc_msg.specs.Payloads.{tree_of, IsPayload};
ghost use Rattle.rpc_codec_parts.specs.Blocks.{seen};
ghost use Rattle.rpc_codec_parts.specs.Reading.{Gives};
ghost use Rattle.rpc_codec_parts.specs.Payloads.{content_of, payload_at, payload_tree};
ghost use Rattle.rpc_codec_parts.specs.Fitting.{IsWithin};

use crate::block::Block;
use crate::build::with_two;
use crate::descriptors::{count_rows, descriptors_in, rows_behind, tree_of_table};
use crate::faults::{EnvelopeFault, ReadError};
use capn_trees::{Tree, WriteFault};
use rpc_msg::{Descriptor, Items, Memory, Payload};
use std::alloc::Global;

/// A content laid out by itself.
fn content_alone(alloc: Global, tree: &Tree, caps: u32) -> Result<Payload, ReadError>
    ensures { Gives (λ p. p) result (content_of (view tree.now) caps) }
{
    match Payload::write(alloc, tree, caps) {
        Ok(payload) => Ok(payload),
        Err(WriteFault::Memory) => Err(ReadError::Memory),
        Err(_) => Err(ReadError::Fault(EnvelopeFault::BadContent)),
    }
}

/// The content behind the first pointer.
fn content_in(alloc: Global, block: &Block, caps: u32) -> Result<Payload, ReadError>
    ensures { Gives (λ p. p) result (content_of (pointer_at (trees_view block.now.pointers.now) 0) caps) }
{
    match block.pointer(0) {
        None => content_alone(alloc, &Tree::Null, caps),
        Some(tree) => content_alone(alloc, tree, caps),
    }
}

/// A payload and its descriptors, read from the struct behind a pointer.
#[tactic(auto, unfolding(crate::specs::Payloads::payload_at))]
pub fn payload_in(
    alloc: Global,
    block: &Block,
    number: usize,
) -> Result<(Payload, Items<Descriptor>), ReadError>
    ensures { Gives (λ p. p) result (payload_at number (seen block.now.words.now block.now.pointers.now)) }
{
    let payload = block.block(number)?;
    let rows = rows_behind(&payload, 1)?;
    let descriptors = descriptors_in(alloc, rows)?;
    let content = content_in(alloc, &payload, count_rows(rows))?;
    Ok((content, Items::from_vec(descriptors)))
}

/// A payload and its descriptors, as a tree.
pub fn tree_of_payload(
    alloc: Global,
    payload: &Payload,
    descriptors: &Items<Descriptor>,
) -> Result<Tree, Memory>
    ensures tree { IfOk result (λ t. view t ≡ payload_tree payload.now descriptors.now) }
    ensures depth { IfOk result (λ t. IsWithin 65 (view t)) }
{
    // Its bytes are such that its content nests at most 64 deep.
    let _ = payload.bytes();
    let content = payload.tree(alloc)?;
    let table = tree_of_table(alloc, descriptors.as_slice())?;
    with_two(alloc, &[], content, table)
}
