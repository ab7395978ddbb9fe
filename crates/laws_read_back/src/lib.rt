//! What a vat says is heard over a wire as it was said. No code runs here: what each function ensures is the law.
//!
//! How the laws are proved stands in docs/laws/over-wires.md.
#![tactic(auto)]

mod laws;

pub use laws::frames_read_back;
