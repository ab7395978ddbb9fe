//! What becomes of tasks and of the answers that a peer waits for, in each step of a vat. No code runs here: what each function
//! ensures is the law.
#![tactic(auto)]

mod laws;

pub use laws::steps_keep_tasks;
