//! What a frame says, or which limit it breaks.
ghost use Rattle.std.specs.Prelude.{◌≡◌, IfOk, Ok};
ghost use Rattle.capn_reading.specs.Reading.{element};
ghost use Rattle.capn_trees.specs.Views.{view};
ghost use Rattle.rpc_codec.specs.Decoding.{Decodes, envelope_at};
ghost use Rattle.rpc_codec.specs.Envelopes.{seen_envelope};
ghost use Rattle.rpc_codec_parts.specs.Blocks.{seen as seen_block};
ghost use Rattle.rpc_codec_parts.specs.Reading.{Gives};
ghost use Rattle.peer_large.specs.Fronts.{large_in};
ghost use Rattle.peer_large.specs.Opening.{came_at, came_in, has_long_path, is_long, limited_by, opened_by, seen, steps_by, steps_of};

use crate::front::{Large, read_front};
use crate::limit::Limit;
use capn_trees::{PayloadFault, Tree};
use rpc_codec::{DecodeError, Envelope, EnvelopeFault, decode};
use rpc_codec_parts::{Block, ReadError};
use rpc_msg::{Memory, PATH_LIMIT, Stamp};
use std::alloc::Global;

/// What a frame says.
#[derive(Drop)]
pub enum Opened {
    /// What it says, as it is decoded.
    Envelope(Envelope),
    /// It breaks that limit, and no more is read than this.
    Spared(Large, Limit),
}

/// What the bytes of a frame say that has no more words than a message may have, as `decode` reads them. Of a Call or Return that
/// breaks a limit by itself the question alone, if its front says it. A `Fault` is that of `decode`.
pub fn open(alloc: Global, frame: &[u8], stamp: Stamp) -> Result<Opened, DecodeError>
    ensures { Decodes seen result (came_at stamp frame.now) }
{
    match decode(alloc, frame, stamp) {
        Ok(envelope) => {
            let opened = spared_if_long(frame, envelope)?;
            Ok(opened)
        }
        Err(DecodeError::Memory) => Err(DecodeError::Memory),
        Err(DecodeError::Fault(fault)) => spared_of(frame, Limit::of(fault), fault),
    }
}

/// The same of a frame with more words, of which these bytes are the front. Takes no memory.
pub fn open_front(front: &[u8]) -> Result<Opened, DecodeError>
    ensures { Decodes seen result (came_in front.now) }
{
    match read_front(front) {
        Some(large) => Ok(Opened::Spared(large, Limit::Words)),
        None => Err(DecodeError::Fault(EnvelopeFault::Encoding(PayloadFault::TooLarge))),
    }
}

// No more than its front, if it is a Call with a path that is too long.
fn spared_if_long(frame: &[u8], envelope: Envelope) -> Result<Opened, Memory>
    ensures { IfOk result (λ opened. opened_by (large_in frame.now) (Ok (seen_envelope envelope)) ≡ Ok (seen opened)) }
{
    let is_long = is_long(&envelope)?;
    if !is_long {
        return Ok(Opened::Envelope(envelope));
    }
    match read_front(frame) {
        Some(large) => Ok(Opened::Spared(large, Limit::Steps)),
        None => Ok(Opened::Envelope(envelope)),
    }
}

// What a frame says that is at fault: no more than its front, if the fault is of a limit.
fn spared_of(
    frame: &[u8],
    limit: Option<Limit>,
    fault: EnvelopeFault,
) -> Result<Opened, DecodeError>
    ensures { Decodes seen result (limited_by limit (large_in frame.now) fault) }
{
    let Some(limit) = limit else {
        return Err(DecodeError::Fault(fault));
    };
    match read_front(frame) {
        Some(large) => Ok(Opened::Spared(large, limit)),
        None => Err(DecodeError::Fault(fault)),
    }
}

// Whether it is a Call whose target has a longer path than a message may have.
fn is_long(envelope: &Envelope) -> Result<bool, Memory>
    ensures { IfOk result (λ long. long ≡ is_long (seen_envelope envelope.now)) }
{
    match envelope {
        Envelope::Unknown(unknown) if unknown.number == 2 => has_long_path(&unknown.original),
        _ => Ok(false),
    }
}

#[tactic(auto, unfolding(crate::specs::Opening::has_long_path))]
fn has_long_path(original: &Tree) -> Result<bool, Memory>
    ensures { IfOk result (λ long. long ≡ has_long_path (view original.now)) }
{
    match steps_of(original) {
        Ok(steps) => Ok(steps > PATH_LIMIT),
        Err(ReadError::Memory) => Err(Memory),
        Err(ReadError::Unknown) => Ok(false),
        Err(ReadError::Fault(_)) => Ok(false),
    }
}

// How many steps the path has in the target of a Call.
fn steps_of(original: &Tree) -> Result<usize, ReadError>
    ensures { Gives (λ steps. steps) result (steps_of (view original.now)) }
{
    let message = Block::of_tree(original)?;
    let call = message.block(0)?;
    let target = call.block(0)?;
    steps_in(&target)
}

fn steps_in(target: &Block) -> Result<usize, ReadError>
    ensures { Gives (λ steps. steps) result (steps_by (element target.now.words.now 16 2) (seen_block target.now.words.now target.now.pointers.now)) }
{
    if target.number::<u16>(2) != 1 {
        return Ok(0);
    }
    let answer = target.block(0)?;
    let steps = answer.structs(0)?;
    Ok(steps.len())
}
