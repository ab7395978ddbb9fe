//! What each step of the machine of `rpc_machine` is made of: lists of small exact changes. No code runs here: what each
//! function ensures is the law.
//!
//! `laws.rt` has that each step is a list of acts, `places.rt` how often nodes are named after each change. docs/laws.md
//! says how laws are proved with them.
#![tactic(auto)]

mod laws;
mod places;

pub use laws::{steps_are_acts, steps_are_small_acts};
pub use places::{
    loose_by_names_that_went, places_follow_tables, taken_calls_stay_named, unnamed_has_no_export,
};
pub use rpc_machine;
pub use rpc_machine::{rpc_journal, rpc_msg};
