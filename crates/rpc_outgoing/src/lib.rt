//! Between a vat and a stream: the bytes that go out for what the vat says (docs/messages.md).
//!
//! - `outgoing.rt`: the bytes that go out, message by message. If the vat says Unimplemented of an `Other`, the frame that was
//!   kept for it goes out, so that what was not understood goes back whole.
//! - `sound.rt`: messages that may go out. `widths.rt`: what each message has by its types.
//! - `errors.rt`: why a message did not go out.
#![tactic(auto)]

mod errors;
mod outgoing;
mod sound;
mod widths;

pub use errors::WriteError;
pub use outgoing::Outgoing;
