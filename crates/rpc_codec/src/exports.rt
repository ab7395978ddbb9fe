//! Resolves, Releases and Disembargoes, read and written.
ghost use Rattle.std.specs.Prelude.{◌≡◌, ◌<◌, IfOk};
ghost use Rattle.capn_trees.specs.Views.{view};
ghost use Rattle.capn_reading.specs.Reading.{element};
ghost use Rattle.rpc_codec_parts.specs.Blocks.{seen};
ghost use Rattle.rpc_codec_parts.specs.Fitting.{IsWithin};
ghost use Rattle.rpc_codec_parts.specs.Reading.{Gives};
ghost use Rattle.rpc_codec.specs.Exports.{resolved_by, resolve_at, release_at, context_by, disembargo_at, resolved_number, resolved_tree, resolve_tree, release_tree, context_word, disembargo_tree};

use capn_trees::Tree;
use rpc_codec_parts::{
    Block, ReadError, data_alone, descriptor_of, exception_in, target_in, tree_of_descriptor,
    tree_of_exception, tree_of_target, with_one,
};
use rpc_msg::{
    Disembargo, DisembargoContext, EmbargoId, ExportId, Memory, Release, Resolve, ResolvedTo,
};
use std::alloc::Global;

fn resolved_of(alloc: Global, block: &Block) -> Result<ResolvedTo, ReadError>
    ensures { Gives (λ r. r) result (resolved_by (element block.now.words.now 16 2) (seen block.now.words.now block.now.pointers.now)) }
{
    match block.number::<u16>(2) {
        0 => {
            let descriptor = block.block(0)?;
            Ok(ResolvedTo::Cap(descriptor_of(&descriptor)?))
        }
        1 => Ok(ResolvedTo::Exception(exception_in(alloc, block, 0)?)),
        _ => Err(ReadError::Unknown),
    }
}

#[tactic(auto, unfolding(crate::specs::Exports::resolve_at))]
pub fn resolve_in(alloc: Global, block: &Block) -> Result<Resolve, ReadError>
    ensures { Gives (λ r. r) result (resolve_at (seen block.now.words.now block.now.pointers.now)) }
{
    let resolve = block.block(0)?;
    let to = resolved_of(alloc, &resolve)?;
    Ok(Resolve {
        promise: ExportId(resolve.number(0)),
        to,
    })
}

#[tactic(auto, unfolding(crate::specs::Exports::release_at))]
pub fn release_in(block: &Block) -> Result<Release, ReadError>
    ensures { Gives (λ r. r) result (release_at (seen block.now.words.now block.now.pointers.now)) }
{
    let release = block.block(0)?;
    Ok(Release {
        export: ExportId(release.number(0)),
        count: release.number(1),
    })
}

fn context_of(block: &Block) -> Result<DisembargoContext, ReadError>
    ensures { Gives (λ c. c) result (context_by (element block.now.words.now 16 2) (seen block.now.words.now block.now.pointers.now)) }
{
    match block.number::<u16>(2) {
        0 => Ok(DisembargoContext::SenderLoopback(EmbargoId(block.number(0)))),
        1 => Ok(DisembargoContext::ReceiverLoopback(EmbargoId(block.number(0)))),
        _ => Err(ReadError::Unknown),
    }
}

#[tactic(auto, unfolding(crate::specs::Exports::disembargo_at))]
pub fn disembargo_in(block: &Block) -> Result<Disembargo, ReadError>
    ensures { Gives (λ d. d) result (disembargo_at (seen block.now.words.now block.now.pointers.now)) }
{
    let disembargo = block.block(0)?;
    let context = context_of(&disembargo)?;
    let target = target_in(&disembargo, 0)?;
    Ok(Disembargo { target, context })
}

fn number_of_resolved(to: &ResolvedTo) -> u64
    ensures number { result ≡ resolved_number to.now }
    ensures small { result < 2 }
{
    match to {
        ResolvedTo::Cap(_) => 0,
        ResolvedTo::Exception(_) => 1,
    }
}

fn tree_of_resolved(alloc: Global, to: &ResolvedTo) -> Result<Tree, Memory>
    ensures tree { IfOk result (λ t. view t ≡ resolved_tree to.now) }
    ensures depth { IfOk result (λ t. IsWithin 65 (view t)) }
{
    match to {
        ResolvedTo::Cap(descriptor) => tree_of_descriptor(alloc, descriptor),
        ResolvedTo::Exception(exception) => tree_of_exception(alloc, exception),
    }
}

pub fn tree_of_resolve(alloc: Global, resolve: &Resolve) -> Result<Tree, Memory>
    ensures tree { IfOk result (λ t. view t ≡ resolve_tree resolve.now) }
    ensures depth { IfOk result (λ t. IsWithin 66 (view t)) }
{
    let to = tree_of_resolved(alloc, &resolve.to)?;
    let word = u64::from(resolve.promise.0) + 0x1_0000_0000 * number_of_resolved(&resolve.to);
    with_one(alloc, &[word], to)
}

pub fn tree_of_release(alloc: Global, release: &Release) -> Result<Tree, Memory>
    ensures tree { IfOk result (λ t. view t ≡ release_tree release.now) }
    ensures depth { IfOk result (λ t. IsWithin 66 (view t)) }
{
    let count = release.count;
    let word = u64::from(release.export.0) + 0x1_0000_0000 * u64::from(count);
    data_alone(alloc, &[word])
}

fn word_of_context(context: DisembargoContext) -> u64
    ensures { result ≡ context_word context }
{
    match context {
        DisembargoContext::SenderLoopback(id) => u64::from(id.0),
        DisembargoContext::ReceiverLoopback(id) => u64::from(id.0) + 0x1_0000_0000,
    }
}

pub fn tree_of_disembargo(alloc: Global, disembargo: &Disembargo) -> Result<Tree, Memory>
    ensures tree { IfOk result (λ t. view t ≡ disembargo_tree disembargo.now) }
    ensures depth { IfOk result (λ t. IsWithin 66 (view t)) }
{
    let target = tree_of_target(alloc, &disembargo.target)?;
    with_one(alloc, &[word_of_context(disembargo.context)], target)
}
