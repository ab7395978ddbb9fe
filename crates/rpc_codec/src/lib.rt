//! The messages of two vats as bytes: the frames of `rpc.capnp`, `Message` in the Cap'n Proto encoding
//! (docs/messages.md).
//!
//! [`decode`] reads a frame as an [`Envelope`]: a message of the profile, a form of tail calls, or something that is not
//! understood, which is kept whole. [`encode`] writes a message as a frame. What is not understood goes back by
//! [`echo`].
//!
//! ```text
//! let frame = encode(alloc, &message)?;
//! match decode(alloc, frame.bytes(), stamp)? {
//!     Envelope::Message(message) => ..,      // the message, with that stamp
//!     Envelope::Unknown(unknown) => ..,      // sent back: echo(alloc, unknown.original)?.bytes()
//!     ..
//! }
//! ```
#![tactic(auto)]

mod bare;
mod decoding;
mod encoding;
mod envelope;
mod errors;
mod exports;
mod headings;
pub mod laws;
mod questions;
mod returns;

pub use decoding::{decode, decode_tree};
pub use encoding::{ANY_CAPS, echo, encode, encode_sent_elsewhere};
pub use envelope::{Envelope, SentElsewhere, TakenFromOther, Unknown};
pub use errors::{DecodeError, EncodeError, EncodeFault};
pub use headings::{Heading, read_heading};
pub use rpc_codec_parts::EnvelopeFault;
