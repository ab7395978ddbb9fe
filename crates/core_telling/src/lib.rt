//! What a step of a vat tells: the journal with the room that is kept in it, the note of a command before its step, and the
//! entries that a step writes.
//!
//! - `journal.rt`: a list that tells contracts its room.
//! - `notes.rt`: a command is noted before its step takes it, with copies of what it hands over; the note and what is
//!   answered make its own entry.
//! - `entries.rt`: the entries of a step, each a copy. `falls.rt`: those of a vat that goes down for lack of room.
#![tactic(auto)]

mod entries;
mod falls;
mod journal;
mod notes;

pub use entries::{count, put_effects};
pub use falls::write_fall;
pub use journal::Journal;
pub use notes::{
    Note, back_of, calls_before, index_of_call, note_answer, note_call, note_of, write_note,
    write_refused,
};
pub use vat_core::{Answer, Core, Refused};
