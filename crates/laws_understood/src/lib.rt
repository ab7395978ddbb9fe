//! Between two vats of level 1 every message is understood: none is an Unimplemented, and none is an Other. No code runs
//! here: what each function ensures is the law.
#![tactic(auto)]

mod laws;

pub use laws::{runs_send_what_is_understood, steps_send_what_is_understood};
