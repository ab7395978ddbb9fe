//! What a vat has a use for still: the objects of its application that a place names, and the tasks whose results somebody
//! wants. Definitions, and a law of how many objects are named. No code runs here.
#![tactic(auto)]

mod laws;

pub use laws::objects_are_named_by_number;
