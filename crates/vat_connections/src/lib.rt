//! Laws of one connection and any peer: it is a run of one vat, and the calls of the peer reach only objects that it was given. No code
//! runs here: what each function ensures is the law.
//!
//! docs/laws/hosts.md says how the laws are proved.
#![tactic(auto)]

mod laws;

pub use laws::{connections_serve_what_is_given, released_are_not_served};
