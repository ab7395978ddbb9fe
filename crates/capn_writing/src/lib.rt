//! Writes trees: the reasons not to, and the bytes of a message of one segment.
#![tactic(auto)]

mod little_endian;
mod place;
mod write;

pub use write::{message_of, write_tree};
