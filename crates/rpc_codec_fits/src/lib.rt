//! What the frames of messages have room for: which commands of a vat can be carried to a peer in bytes.
#![tactic(auto)]

mod lengths;

pub use lengths::fits_envelope;
