//! How many exports an `answer` or a `resolve` may want, and that it makes no more. No code runs here: what each function ensures is
//! the law.
#![tactic(auto)]

mod laws;

pub use laws::exports_are_foreseen;
