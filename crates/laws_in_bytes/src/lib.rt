//! What two connections do that are joined by two streams of bytes, they do over wires. No code runs here: what each function
//! ensures is the law.
//!
//! How the laws are proved stands in docs/laws/over-wires.md.
#![tactic(auto)]

mod laws;

pub use laws::joined_runs_are_wired;
