//! How the values in a journal's lines are read: objects, whose keys come in rising order and of which none is unknown; the
//! parts that entries are made of; and messages.
//!
//! - `fields.rt`: the members of an object. `parts.rt`: payloads, outcomes and other parts. `messages.rt`: messages. `fault.rt`: why a
//!   value has not the shape of an entry.
#![tactic(auto)]

mod fault;
mod fields;
mod messages;
mod parts;

pub use fault::Fault;
pub use fields::{Fields, Part};
pub use messages::message_of;
pub use parts::{RawPayload, next_payload, no_payload, outcome_of};
