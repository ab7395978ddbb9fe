//! What the ends of a pair on threads rest on: laws of single steps. No code runs here: what each function ensures is the
//! law.
#![tactic(auto)]

mod laws;

pub use laws::{names_stay, new_is_start, overflow_is_shut};
