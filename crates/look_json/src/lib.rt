//! The messages of a conversation as lines of JSON, each with the earlier messages that it belongs to (docs/looking.md).
//!
//! - `line.rt`: the line of a message. `links.rt`: which messages it belongs to. `found.rt`: what is to be said of it.
//! - `open.rt`: what is open. `notes.rt`: what else is said. `members.rt`: members of objects.
#![tactic(auto)]

mod found;
mod line;
mod links;
mod members;
mod notes;
mod open;

pub use line::{Place, write_message, write_none};
pub use notes::{write_cut, write_rest, write_stuck};
pub use open::write_open;
