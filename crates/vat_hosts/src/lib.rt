//! Two hosts whose messages are handed over are a run of two vats in one world, of which all holds that is promised of runs. One host
//! is a run of one vat, whatever its peer sends: it has its application serve what the peer was given. No code runs here: what each
//! function ensures is the law.
//!
//! How the laws are proved stands in docs/laws/hosts.md.
#![tactic(auto)]

mod laws;

pub use laws::{
    cancelled_are_told, exchange_hands_over, hosts_are_worlds, hosts_serve_what_is_given,
    released_are_not_served,
};
