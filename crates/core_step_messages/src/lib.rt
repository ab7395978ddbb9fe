//! What a received message does first, or which fault it is.
//!
//! `take_message` (`messages.rt`) chooses by the message's kind, and sends back what isn't understood. Each kind is a
//! function with the same clauses. If it succeeds, its fault is none and its first act is done (`Takes`). Else the
//! answer is its fault, or lack of room or of memory (`Stops` of `specs/Stopping`), and the step is only to be dropped.
//! An Abort never lacks room (`StopsIf`). So checks and changes may alternate:
//!
//! - `calls.rt` (`take_call`), `bootstraps.rt`, `returns.rt` (`take_return`, and `take_echoed` of a question that came
//!   back), `finishes.rt`, `releases.rt`, `resolves.rt`, `disembargoes.rt`, `echoes.rt` (what came back
//!   Unimplemented).
//! - `descriptors.rt` looks at each descriptor of a message and takes it before the next, so that the whole costs
//!   linear time. The loop keeps that what the descriptors that are left find and leave is what all do (`found_by` of
//!   `proofs/InTurn`). `descriptors_in_turn` of `core_step_checks` makes that the machine's fault. `flags.rt` does the
//!   same for the ids of a release flag.
//! - `foresight.rt`: if the descriptors of a message may not all find room among the imports, the message is checked
//!   first and nothing is taken. Checked are what comes before its descriptors, these, the room for a call that would
//!   wait, and the ids of a Return's flag. So a full table is not found at one descriptor if a later check fails.
//!   `kinds.rt` has as what exports were given by the descriptors before, by id; `remainders.rt` what is left of the
//!   counts of exports once the ids before are given back.
//! - `nodes.rt` reads the nodes of descriptors before they are taken, for exports and answers are what they were.
//! - `answers.rt` opens an answer with a new outcome.
//! - `questions.rt` is what a Return does to its question: it keeps what was said, and a relay's outcome arises, or the
//!   application is told.
//!
//! A Resolve of an import that is gone says nothing, also if its own descriptor brings an import of that id: whether it
//! is there is read before.
#![tactic(auto)]

mod answers;
mod bootstraps;
mod calls;
mod descriptors;
mod disembargoes;
mod echoes;
mod finishes;
mod flags;
mod foresight;
mod kinds;
mod messages;
mod nodes;
mod questions;
mod releases;
mod remainders;
mod resolves;
mod returns;

pub use bootstraps::take_bootstrap;
pub use calls::take_call;
pub use core_step_settles as settles;
pub use disembargoes::take_disembargo;
pub use echoes::take_unimplemented;
pub use finishes::take_finish;
pub use messages::take_message;
pub use releases::take_release;
pub use resolves::take_resolve;
pub use returns::{take_echoed, take_return};
