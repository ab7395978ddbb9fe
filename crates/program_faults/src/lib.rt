//! What the number of a fault means, in words for programs that print one.
//!
//! - `numbered.rt`: `NumberedFault`, a fault of any of the crates that number them, and `fault_of` a number. `shown.rt`: `ShownFault`,
//!   a number with its name and meaning.
//!
//! docs/numbers.md says what to do about each.
#![tactic(auto)]

mod numbered;
mod shown;

pub use numbered::{NumberedFault, fault_of};
pub use shown::ShownFault;
