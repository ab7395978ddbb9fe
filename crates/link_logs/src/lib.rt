//! The log of an end: what an entry says of its step, and which journal entries it stands for. Two logs that have one order
//! have the journal of a run of two vats (`laws.rt`), and all that is promised of every run holds of it (`promises.rt`).
//!
//! - `note.rt`: what an entry says of its step. `pieces.rt`: the entries of both journals in the one order of the logs.
#![tactic(auto)]

mod laws;
mod note;
mod pieces;
mod promises;

pub use laws::orders_are_runs;
pub use note::{Note, Told};
pub use pieces::{Piece, Pieces, pieced};
pub use promises::orders_keep_promises;
