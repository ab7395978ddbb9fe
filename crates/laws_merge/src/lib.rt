//! Two logs have one interleaving.
//!
//! Two sides, each on a thread of its own, send each other numbered frames, and each keeps a log of what happened at
//! it; nobody keeps a common order. The theorem of this crate gives one back (`docs/threads.md`): two lawful logs that
//! fit are explained by a run in one thread, entry by entry, and the merge of the two logs is that run.
#![tactic(auto)]

mod laws;
mod merge;

pub use laws::{Steps, acks_are_needed, log_grows, logs_interleave, merge_of_views};
pub use merge::{Logged, OneOf, merge_logs};
