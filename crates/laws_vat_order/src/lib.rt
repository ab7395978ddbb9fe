//! Calls keep their order at one vat, whatever its peer sends. No code runs here: what each function ensures is the law.
#![tactic(auto)]

mod laws;

pub use laws::{arrivals_keep_order, calls_follow, calls_keep_order, none_passes, waits_once};
