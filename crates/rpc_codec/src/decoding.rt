//! Frames, decoded.
ghost use Rattle.std.specs.Prelude.{◌≡◌, IsOk, IfOk, Ok};
ghost use Rattle.capn_trees.specs.Views.{view};
ghost use Rattle.capn_reading.specs.Reading.{element, message_of, tree_read};
ghost use Rattle.rpc_codec_parts.specs.Blocks.{seen};
ghost use Rattle.rpc_codec_parts.specs.Reading.{Gives};
ghost use Rattle.rpc_codec.specs.Envelopes.{seen_envelope, known_by, back_at, said_by, said_at, number_at};
ghost use Rattle.rpc_codec.specs.Decoding.{any_caps, encoded, envelope_of, envelope_at, Decodes};

use crate::bare::bare_message;
use crate::encoding::ANY_CAPS;
use crate::envelope::{Envelope, Known, Unknown};
use crate::errors::DecodeError;
use crate::exports::{disembargo_in, release_in, resolve_in};
use crate::questions::{bootstrap_in, call_in, finish_in};
use crate::returns::return_in;
use capn_reading::{Message as Segments, build_tree, visited_words};
use capn_trees::Tree;
use rpc_codec_parts::{Block, EnvelopeFault, ReadError, exception_in};
use rpc_msg::{Message, PlainMessage, Stamp};
use std::alloc::{AllocError, Global};

/// A message that is no Unimplemented.
fn known_of(alloc: Global, number: u16, block: &Block, stamp: Stamp) -> Result<Known, ReadError>
    ensures { Gives (λ k. k) result (known_by number stamp (seen block.now.words.now block.now.pointers.now)) }
{
    match number {
        1 => Ok(Known::Plain(PlainMessage::Abort(exception_in(alloc, block, 0)?))),
        2 => call_in(alloc, block, stamp),
        3 => return_in(alloc, block),
        4 => Ok(Known::Plain(PlainMessage::Finish(finish_in(block)?))),
        5 => Ok(Known::Plain(PlainMessage::Resolve(resolve_in(alloc, block)?))),
        6 => Ok(Known::Plain(PlainMessage::Release(release_in(block)?))),
        8 => Ok(Known::Plain(PlainMessage::Bootstrap(bootstrap_in(block)?))),
        13 => Ok(Known::Plain(PlainMessage::Disembargo(disembargo_in(block)?))),
        _ => Err(ReadError::Unknown),
    }
}

/// The message in an Unimplemented.
fn back_of(alloc: Global, block: &Block, stamp: Stamp) -> Result<PlainMessage, ReadError>
    ensures { Gives (λ m. m) result (back_at stamp (seen block.now.words.now block.now.pointers.now)) }
{
    let number = block.number(0);
    if number == 0 {
        return Err(ReadError::Fault(EnvelopeFault::NestedUnimplemented));
    }
    match known_of(alloc, number, block, stamp) {
        Ok(known) => Ok(known.into_plain(number)),
        Err(ReadError::Unknown) => Ok(PlainMessage::Other(number)),
        Err(error) => Err(error),
    }
}

fn said_of(alloc: Global, block: &Block, stamp: Stamp) -> Result<Envelope, ReadError>
    ensures { Gives seen_envelope result (said_by (element block.now.words.now 16 0) stamp (seen block.now.words.now block.now.pointers.now)) }
{
    let number = block.number(0);
    if number == 0 {
        let back = block.block(0)?;
        let message = back_of(alloc, &back, stamp)?;
        return Ok(Envelope::Message(Message::Unimplemented(message)));
    }
    let known = known_of(alloc, number, block, stamp)?;
    Ok(known.into_envelope())
}

#[tactic(auto, unfolding(crate::specs::Envelopes::said_at))]
fn said_in(alloc: Global, tree: &Tree, stamp: Stamp) -> Result<Envelope, ReadError>
    ensures { Gives seen_envelope result (said_at stamp (view tree.now)) }
{
    let block = Block::of_tree(tree)?;
    said_of(alloc, &block, stamp)
}

/// The number in the union.
fn number_in(tree: &Tree) -> u16
    ensures { result ≡ number_at (view tree.now) }
{
    match tree {
        Tree::Struct { words, .. } => {
            let block = Block {
                words: words.as_slice(),
                pointers: &[],
            };
            block.number(0)
        }
        _ => 0,
    }
}

/// What the tree of a frame says; of what is not understood the tree is kept.
#[tactic(auto, unfolding(crate::specs::Decoding::envelope_of))]
pub fn decode_tree(alloc: Global, tree: Tree, stamp: Stamp) -> Result<Envelope, DecodeError>
    ensures { Decodes seen_envelope result (envelope_of stamp (view tree)) }
{
    match said_in(alloc, &tree, stamp) {
        Ok(envelope) => Ok(envelope),
        Err(ReadError::Memory) => Err(DecodeError::Memory),
        Err(ReadError::Fault(fault)) => Err(DecodeError::Fault(fault)),
        Err(ReadError::Unknown) => Ok(Envelope::Unknown(Unknown {
            number: number_in(&tree),
            original: tree,
        })),
    }
}

/// The tree of bytes that can be read.
fn tree_of_read(alloc: Global, bytes: &[u8]) -> Result<Tree, AllocError>
    requires { IsOk (message_of bytes.now any_caps) }
    ensures { IfOk result (λ t. view t ≡ tree_read (message_of bytes.now any_caps)) }
{
    let Ok(message) = Segments::parse(bytes) else {
        unreachable!()
    };
    let tree = build_tree(alloc, &message, ANY_CAPS)?;
    Ok(tree)
}

/// The tree of a frame.
fn tree_in(alloc: Global, bytes: &[u8]) -> Result<Tree, DecodeError>
    ensures { Decodes view result (encoded (message_of bytes.now any_caps)) }
{
    match visited_words(bytes, ANY_CAPS) {
        Err(fault) => Err(DecodeError::Fault(EnvelopeFault::Encoding(fault))),
        Ok(_) => {
            let tree = tree_of_read(alloc, bytes)?;
            Ok(tree)
        }
    }
}

/// What the bytes of one frame say: a segment table and the segments, and nothing behind them. A Call gets the stamp,
/// which is not in the bytes. Else the first check that fails, in the order of docs/messages.md, or `Memory` if
/// memory runs out. The bytes stay as they are.
#[tactic(auto, unfolding(crate::specs::Decoding::envelope_at))]
pub fn decode(alloc: Global, bytes: &[u8], stamp: Stamp) -> Result<Envelope, DecodeError>
    ensures { Decodes seen_envelope result (envelope_at stamp bytes.now) }
{
    if let Some(message) = bare_message(alloc, bytes, stamp)? {
        return Ok(Envelope::Message(Message::Plain(message)));
    }
    let tree = tree_in(alloc, bytes)?;
    decode_tree(alloc, tree, stamp)
}
