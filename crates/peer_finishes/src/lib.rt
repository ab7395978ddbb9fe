//! Between a vat of the profile and a peer of another make (docs/messages.md, "Peers of other make"): a peer that sends no Return
//! for a call whose Finish came first. A Finish is held back until the Return came, if that is asked for.
//!
//! - `held.rt`: [`HeldFinishes`], its calls. `questions.rt`: the questions that are open, by id.
//! - `laws.rt`: that it stands aside, and that each Finish goes once and all else in its place, as contracts of functions that do
//!   nothing.
//!
//! `specs/Finishing.antt` says what each message and each envelope comes to.
#![tactic(auto)]

mod held;
mod laws;
mod questions;

pub use held::{Finishes, HeldFinishes};
pub use laws::{finishes_go_once, stands_aside};
