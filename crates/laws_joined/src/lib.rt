//! What is promised of two vats in one world holds of two connections that are joined by streams of bytes. No code runs here: what
//! each function ensures is the law.
//!
//! How the laws are proved stands in docs/laws/over-wires.md.
#![tactic(auto)]

mod laws;

pub use laws::joined_runs_are_sound;
