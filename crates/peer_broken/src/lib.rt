//! Between the envelopes of a peer of another make and a vat of the profile (docs/messages.md, "Peers of other make"): a
//! peer that names a promise again which it broke before. The vat hears `none` in its place, and the count that came with
//! the name is given back once.
//!
//! - `names.rt`: [`BrokenNames`], its calls. `named.rt`: what comes of a message.
//! - `descriptors.rt`: the descriptors that name a broken promise.
//! - `due.rt`: what gives a name back. `owed.rt`: the names that are owed, by id.
//! - `laws.rt`: that it stands aside, and that each count is given back once, as contracts of functions that do nothing.
//!
//! `specs/Naming.antt` says what each message comes to.
#![tactic(auto)]

mod descriptors;
mod due;
mod laws;
mod named;
mod names;
mod owed;

pub use laws::{counts_once, stands_aside};
pub use named::Named;
pub use names::BrokenNames;
