//! What stands on the wires between two vats means what the history says. No code runs here: what each function ensures is
//! the law.
//!
//! `sent.rt` has the laws of what is sent, `scenes.rt` those of steps in scenes, `laws.rt` the others.
//!
//! How the laws are proved stands in docs/laws.md ("What stands on the wires").
#![tactic(auto)]

mod laws;
mod scenes;
mod sent;

pub use laws::{what_is_sent_is_read, wires_are_left, wires_last, wires_mean_at_first};
pub use scenes::{
    answers_are_left, imports_are_brought, named_are_kept, returns_are_awaited,
    the_way_back_is_held, what_is_asked_is_of_calls, what_is_sent_is_met,
};
pub use sent::{
    acts_send_meanings, commands_send_meanings, first_acts_send_meanings,
    links_are_sent_with_meanings, messages_send_meanings, steps_send_meanings,
};
