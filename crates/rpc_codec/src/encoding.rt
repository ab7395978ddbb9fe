//! Messages, encoded as frames, and what is not understood, sent back.
ghost use Rattle.std.specs.Prelude.{◌≡◌, Some, Ok, IfOk};
ghost use Rattle.capn_trees.specs.Views.{view};
ghost use Rattle.capn_trees.specs.declared.faults.WriteFault.TheVariants as write_faults;
ghost use Rattle.rpc_msg.specs.Payloads.{IsEncoded, tree_of};
ghost use Rattle.rpc_codec_parts.specs.Fitting.{IsWithin};
ghost use Rattle.rpc_codec.specs.Frames.{envelope, plain_tree, message_tree, frame_of, message_frame, echo_frame, sent_elsewhere_frame, Writes, refused_as};

use crate::bare::bare_frame;
use crate::envelope::SentElsewhere;
use crate::errors::{EncodeError, EncodeFault};
use crate::exports::{tree_of_disembargo, tree_of_release, tree_of_resolve};
use crate::questions::{tree_of_bootstrap, tree_of_call, tree_of_finish};
use crate::returns::{tree_of_return, tree_of_sent_elsewhere};
use capn_trees::{Pointers, PushError, Tree, WriteFault};
use rpc_codec_parts::{tree_of_exception, with_one};
use rpc_msg::{Message, Payload, PlainMessage};
use std::alloc::Global;

/// The number of the capabilities of a frame: what they are is said in it.
pub const ANY_CAPS: u32 = 0xffff_ffff;

/// The number in the union, and what it is the number of.
fn parts_of(alloc: Global, message: &PlainMessage) -> Result<(u16, Tree), EncodeError>
    ensures tree { Writes (λ p. envelope p.0 (view p.1)) result (plain_tree message.now) }
    ensures depth { IfOk result (λ p. IsWithin 66 (view p.1)) }
{
    match message {
        PlainMessage::Abort(exception) => Ok((1, tree_of_exception(alloc, exception)?)),
        PlainMessage::Bootstrap(question) => Ok((8, tree_of_bootstrap(alloc, *question)?)),
        PlainMessage::Call(call) => Ok((2, tree_of_call(alloc, call)?)),
        PlainMessage::Return(said) => Ok((3, tree_of_return(alloc, said)?)),
        PlainMessage::Finish(finish) => Ok((4, tree_of_finish(alloc, finish)?)),
        PlainMessage::Resolve(resolve) => Ok((5, tree_of_resolve(alloc, resolve)?)),
        PlainMessage::Release(release) => Ok((6, tree_of_release(alloc, release)?)),
        PlainMessage::Disembargo(disembargo) => Ok((13, tree_of_disembargo(alloc, disembargo)?)),
        PlainMessage::Other(_) => Err(EncodeError::Fault(EncodeFault::NumberAlone)),
    }
}

fn tree_of_plain(alloc: Global, message: &PlainMessage) -> Result<Tree, EncodeError>
    ensures tree { Writes view result (plain_tree message.now) }
    ensures depth { IfOk result (λ t. IsWithin 67 (view t)) }
{
    let (number, tree) = parts_of(alloc, message)?;
    let tree = with_one(alloc, &[u64::from(number)], tree)?;
    Ok(tree)
}

/// The tree of a message's frame.
fn tree_of_message(alloc: Global, message: &Message) -> Result<Tree, EncodeError>
    ensures { Writes view result (message_tree message.now) }
{
    match message {
        Message::Plain(plain) => tree_of_plain(alloc, plain),
        Message::Unimplemented(plain) => {
            let tree = tree_of_plain(alloc, plain)?;
            let tree = with_one(alloc, &[0], tree)?;
            Ok(tree)
        }
    }
}

/// Why a tree is not written.
fn refused(fault: WriteFault) -> EncodeError
    ensures { result ≡ refused_as fault }
{
    match fault {
        WriteFault::Memory => EncodeError::Memory,
        _ => EncodeError::Fault(EncodeFault::Unwritable(fault)),
    }
}

/// The frame of a tree.
fn frame(alloc: Global, tree: &Tree) -> Result<Payload, EncodeError>
    ensures frame { Writes (λ p. p) result (frame_of (view tree.now)) }
    ensures says { IfOk result (λ p. IsEncoded p × (tree_of p ≡ view tree.now)) }
{
    match Payload::write(alloc, tree, ANY_CAPS) {
        Ok(payload) => Ok(payload),
        Err(fault) => Err(refused(fault)),
    }
}

/// The frame of a message, in one segment: its bytes are to be sent. Refused is a message that holds `Other`, since a
/// number alone is no message, and one that passes a limit of the encoding together with its contents. `Memory` comes
/// if memory runs out. The message is left as it is.
pub fn encode(alloc: Global, message: &Message) -> Result<Payload, EncodeError>
    ensures frame { Writes (λ p. p) result (message_frame message.now) }
    // What is written reads as the message's tree.
    ensures says { IfOk result (λ p. IsEncoded p × (message_tree message.now ≡ Ok (tree_of p))) }
{
    if let Message::Plain(plain) = message {
        if let Some(payload) = bare_frame(alloc, plain)? {
            return Ok(payload);
        }
    }
    let tree = tree_of_message(alloc, message)?;
    let payload = frame(alloc, &tree)?;
    Ok(payload)
}

/// The frame of a Return that says that the results of a tail call are kept (`resultsSentElsewhere`). `Memory` comes if
/// memory runs out.
#[cold]
#[inline(never)]
pub fn encode_sent_elsewhere(alloc: Global, said: SentElsewhere) -> Result<Payload, EncodeError>
    ensures frame { Writes (λ p. p) result (sent_elsewhere_frame said) }
{
    let tree = tree_of_sent_elsewhere(alloc, said)?;
    let tree = with_one(alloc, &[3], tree)?;
    let payload = frame(alloc, &tree)?;
    Ok(payload)
}

/// The frame of the Unimplemented that sends a message back, whole. Refused if the message has become too large by
/// its two words, or too deep by its level; then nothing but an Abort is left to say. `Memory` comes if memory runs
/// out.
pub fn echo(alloc: Global, original: Tree) -> Result<Payload, EncodeError>
    ensures frame { Writes (λ p. p) result (echo_frame (view original)) }
{
    let mut pointers = Pointers::new(alloc);
    if let Err(PushError { fault, tree: _ }) = pointers.push(original) {
        return Err(refused(fault));
    }
    let Ok(words) = Vec::from_slice(alloc, &[0]) else {
        return Err(EncodeError::Memory);
    };
    let payload = frame(alloc, &Tree::Struct { words, pointers })?;
    Ok(payload)
}
