//! Entries under numbers that rise as they are given out (`rising.rt`), and how much memory a table is made (`capacity.rt`).
#![tactic(auto)]

mod capacity;
mod rising;

pub use capacity::{grow, growth};
pub use rising::Rising;
