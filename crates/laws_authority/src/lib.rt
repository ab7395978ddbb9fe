//! What any peer can do with one vat: its calls are delivered to those objects alone that it was given. No code runs here:
//! what each function ensures is the law.
#![tactic(auto)]

mod laws;

pub use laws::{
    all_at_most_once, authority_ends, authority_is_given, authority_is_kept, calls_are_aimed,
};
