//! What a conversation says that was captured as bytes: a line of JSON for each message, in the form of trace lines
//! (docs/messages.md).
#![tactic(auto)]

mod envelopes;
mod failure;
mod form;
mod frames;
mod hexadecimal;
mod line;
mod named;
mod options;
mod payloads;
mod pieces;
mod trees;

pub use failure::{Failure, status, tell};
pub use form::Form;
pub use line::line_of;
pub use named::{members_of, write_line};
pub use options::Options;
pub use pieces::dump;
