//! Between the envelopes of a peer of another make and a vat of the profile (docs/messages.md, "Peers of other make"):
//! what the vat hears of what came, and what goes to the peer for a message of the vat.
//!
//! - `adapter.rt`: [`Adapter`], its two calls. `heard.rt`: what they give. `errors.rt`: what they refuse.
//! - `tails.rt`: the peer's tail calls that are open.
//! - `outcomes.rt`: the outcome of a tail call, as it stands in the Return that takes it. `paths.rt`: the capabilities of a
//!   payload, by the paths that lead to them.
//! - `nulls.rt`: payloads as they go to the peer, with null in place of pointers to capabilities that are not there.
//! - `laws.rt`: that it stands aside, and counts each thing once, as contracts of functions that do nothing.
//!
//! `specs/Adapting.antt` says what each envelope and each message comes to.
#![tactic(auto)]

mod adapter;
mod errors;
mod heard;
mod laws;
mod nulls;
mod outcomes;
mod paths;
mod tails;

pub use adapter::Adapter;
pub use errors::{AdapterError, AdapterFault};
pub use heard::{Heard, Inbound, Outbound, Said};
pub use laws::{counts_once, gives_back_once, stands_aside};
