//! The end of a step: which questions are over, and what is sent for what goes.
//!
//! Which questions are over (`find_over` of `over.rt`) is found while what no place names goes, and what these
//! questions name. This is a dry run of the step, since the Finishes are made by rising id, and each flag looks at what
//! stands by then. The store stays as it is.
//!
//! - `thought.rt`: `Thought` has the nodes of what went, how often each thing is among them, how many of the places that
//!   named each thing went with them, and what may have to go. What is left in the thought is the store's state without
//!   what went (`left` of `specs/Thinking`), so a body needs no second state.
//! - `tally.rt`, `tallies.rt`: its counts. They list their keys, so to clear them for the next step is work for each key
//!   that was counted, and takes and gives back no memory; if one question is over and its Return named nothing, none is
//!   counted.
//! - `unnamed.rt`: if no place names a Pipe of any question and no more than one question is noted, that one alone can
//!   be over, whatever else goes, and nothing is thought. That the rest could be thought to its end is shown in
//!   `proofs/Withering`.
//! - `alone.rt`: if one outcome or one question alone is noted and names nothing, nothing is thought either, for then
//!   nothing follows from its going; nor if nothing is noted.
//! - `search.rt`: else each note is looked at, and then each turn of `think` looks at one node of what may have to go.
//!   If its thing is loose by now (`candidates.rt`, `looseness.rt`: named by no more places than went), it goes, and
//!   what it named is put behind (`losses.rt`). What is loose in what is left is always among the notes and nodes that are
//!   still to be looked at (`Covers`), so at the end it is tight and no question is to be finished. A turn makes less work:
//!   what is pending, with the places that are left.
//!
//! Then the questions that are over are finished, in order, and what no place names goes:
//!
//! - `finishes.rt` has one question: what no place names goes, the flag is made while the Return stands, the question
//!   closes, and what the flag lets go is given back.
//! - `sweeps.rt`: `sweep_over` does so of all. The loop keeps that what is finished from now on is finished from the
//!   start, and `AreLeft`: the questions to come stand as they stood, have room for their Finishes, and have greater
//!   ids than those before. There is that room since no more questions are over than have a Finish to be sent
//!   (`proofs/Withered`). `finishing_of` is the step as the machine has it in between, its Finishes behind all else
//!   that it says.
//! - `notes.rt`: last, if more than one question is noted, the notes go (`forget_questions`): a call of the
//!   application takes them away before it begins, but a vat that only receives would gather them.
//! - `effects.rt`: `end_settled` sweeps so and takes what the step says, and no step is in progress then; `sweep` finds the
//!   questions first.
#![tactic(auto)]

mod alone;
mod candidates;
mod effects;
mod finishes;
mod looseness;
mod losses;
mod notes;
mod over;
mod search;
mod sweeps;
mod tallies;
mod tally;
mod thought;
mod unnamed;

pub use effects::{end_settled, sweep};
pub use notes::rest;
pub use over::find_over;
pub use sweeps::sweep_over;
pub use thought::Thought;
