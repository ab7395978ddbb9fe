//! Whole traces as text: read line by line, checked, shown, and written in the newer version (`docs/trace.md`).
//!
//! - `follower.rt` reads a text line by line and hands each entry to a *follower*, which is a trait: what is done with a
//!   trace is said by how an entry changes its follower.
//! - `check.rt`: the follower that checks; `tally.rt`: the one that counts the calls of each reference (its table is in
//!   `rows.rt`); `version_two.rt`: the one that writes version 2.
//! - `lines.rt`: the lines of a text; `entries.rt`: entries as text; `fault.rt`: what a text's first line at fault is.
#![tactic(auto)]

mod check;
mod entries;
mod fault;
mod follower;
mod lines;
mod rows;
mod tally;
mod version_two;

pub use check::{check_trace, write_verdict};
pub use entries::{write_entries, write_entry};
pub use fault::FileFault;
pub use follower::{Follower, follow};
pub use rows::{Calls, Place};
pub use tally::show;
pub use version_two::upgrade;
