//! What is encoded is decoded.
ghost use Rattle.std.specs.Prelude.{◌≡◌, IfOk, MatchResult};
ghost use Rattle.rpc_codec.specs.declared.errors.DecodeError.TheVariants as errors;
ghost use Rattle.rpc_codec.specs.Envelopes.{profile, seen_envelope};
ghost use Rattle.rpc_codec.specs.Laws.{Fits, stamped, KeptReadBack, ReadBack};

use crate::decoding::decode;
use crate::encoding::encode;
use crate::envelope::Envelope;
use crate::errors::{DecodeError, EncodeError};
use rpc_msg::{Message, Stamp};
use std::alloc::Global;

/// The tree of a message says that message, except for the stamp, which is not in it, and for how the contents of payloads
/// are laid out.
pub fn trees_read_back()
    ensures { ReadBack }
{}

/// The tree of a Return that says that results are kept says so.
pub fn kept_reads_back()
    ensures { KeptReadBack }
{}

/// Encodes a message, and decodes the frame: if it is encoded, that gives the message, with this stamp and with its
/// contents laid out as they are written, unless memory runs out.
pub fn encode_and_decode(
    alloc: Global,
    message: &Message,
    stamp: Stamp,
) -> Result<Result<Envelope, DecodeError>, EncodeError>
    ensures { Fits message.now → IfOk result (λ read. MatchResult read (λ e. seen_envelope e ≡ profile (stamped stamp message.now)) (λ e. e ≡ errors.Memory)) }
{
    let frame = encode(alloc, message)?;
    Ok(decode(alloc, frame.bytes(), stamp))
}
