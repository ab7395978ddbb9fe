//! An envelope with other descriptors in the place of its own: what parts of an adapter that hear a capability otherwise than the
//! peer named it have in common (docs/messages.md, "Peers of other make").
//!
//! `envelope.rt`: its two functions. `specs/Replacing.antt` says what they give; `proofs/Replaced.antt` has what is known of it.
#![tactic(auto)]

mod envelope;

pub use envelope::{descriptors_in, envelope_with};
