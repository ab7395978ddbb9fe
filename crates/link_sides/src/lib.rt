//! A real vat as a side of a pair on threads: its core, and what its end writes of each step.
//!
//! - `side.rt`: `VatSide`, the side. `kept.rt`: what it keeps, with the room in which its vat can always go down.
//! - `receipt.rt`: it receives a message. `commands.rt`: it obeys a command, or it is shut. `answers.rt`: what the core answers to a
//!   command. `refs.rt`, `promises.rt`: commands that only make a reference or a promise.
//! - `entries.rt`: the entries and the note of a step. `sends.rt`: its messages.
#![tactic(auto)]

mod answers;
mod commands;
mod entries;
mod kept;
mod promises;
mod receipt;
mod refs;
mod sends;
mod side;

pub use core_telling::{Answer, Core, Refused};
pub use side::VatSide;
