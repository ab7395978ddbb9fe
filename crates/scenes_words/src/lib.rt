//! Entries and messages in few words, behind a text: what the programs of scenes say, and compare.
#![tactic(auto)]

mod entries;
mod messages;
mod parts;

pub use entries::{write_counts, write_delivery, write_ended, write_entry};
pub use messages::write_message;
pub use parts::letter;
