//! No number of an object is ever sent: what goes out depends on objects by their places alone. No code runs here: what the
//! function ensures is the law.
#![tactic(auto)]

mod laws;

pub use laws::steps_hide_numbers;
