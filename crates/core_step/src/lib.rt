//! A step of a vat in progress: what the vat holds, what was said so far, and the outcomes that are still to be settled.
//!
//! - `step.rt`: `Step`: its store, its outbox, and the outcomes that arose and are to be settled (`arisen.rt`).
//! - `room.rt`: begins a step with room, and makes more.
//! - `says.rt`: says what a step says.
//!
//! `progress_of` of `specs/InProgress` is what the machine sees of a step. `IsReady` is what holds of its parts
//! together while it goes on. The store is sound. What is said and what arises has as much room as the store has slack,
//! so that the slack is the one number of room. Each question has room for its Finish and each import for its Release,
//! so that the end of a step takes no memory.
#![tactic(auto)]

mod arisen;
mod room;
mod says;
mod step;

pub use arisen::Arisen;
pub use room::{begin, reserve};
pub use says::{arises, echo, next_arisen, send, tell_delivery, tell_ended};
pub use step::Step;
