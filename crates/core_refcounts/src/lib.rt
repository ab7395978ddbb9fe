//! How many places of a vat name each of its promises, outcomes, imports, questions and objects, and which of these may have to go.
//!
//! - `names.rt`: `Names`, all counts and the things that were noted. `counter.rt`: the counts of one kind of thing. `object_counts.rt`:
//!   those of objects.
#![tactic(auto)]

mod counter;
mod names;
mod object_counts;

pub use counter::Counter;
pub use names::Names;
pub use object_counts::ObjectCounts;
