//! How a vat asks its questions, and that none of its messages is a fault for the adapter of its peer. No code runs here: what the
//! functions ensure are the laws.
#![tactic(auto)]

mod laws;

pub use laws::{no_message_is_a_fault, steps_ask_in_turn};
