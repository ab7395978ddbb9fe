//! What two vats do over wires, on which no stamp goes and contents are laid out anew, they do in one world. No code runs
//! here: what each function ensures is the law.
//!
//! How the laws are proved stands in docs/laws/over-wires.md.
#![tactic(auto)]

mod laws;

pub use laws::{steps_are_alike, wired_runs_are_runs};
