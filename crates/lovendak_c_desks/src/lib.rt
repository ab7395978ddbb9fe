//! Laws of one desk and any peer: it is a run of one vat, and what it hands out in numbers is what its connection reports. No code runs
//! here: what each function ensures is the law.
//!
//! docs/laws/hosts.md says how the laws are proved.
#![tactic(auto)]

mod laws;

pub use laws::desks_serve_what_is_given;
