//! What parts of the adapter for peers of other make do between two vats of this project: nothing. What they spare a vat with another
//! peer: faults of kinds. No code runs here: what the functions ensure are the laws.
#![tactic(auto)]

mod laws;

pub use laws::{fitting_names_are_alike, heard_kinds_fit, kinds_stand_aside};
