//! Between the envelopes of a peer of another make and a vat of the profile (docs/messages.md, "Peers of other make"): a
//! peer that names an export in two kinds. The vat hears each of its names in the kind of the first one, and does not hear of a
//! Resolve of what was named as an object.
//!
//! - `outcome.rt`: what comes of an envelope. `standing.rt`: how an import stands, which the vat is asked.
//! - `kinds.rt`: [`hear_kinds`]. `firsts.rt`: the kinds in which exports were named first in a message.
//! - `laws.rt`: that what is heard is named in one kind, that it stands aside, and that each count is heard or given back, as
//!   contracts of functions that do nothing.
//!
//! `specs/Kinds.antt` says what each envelope comes to.
#![tactic(auto)]

mod firsts;
mod kinds;
mod laws;
mod outcome;
mod standing;

pub use kinds::hear_kinds;
pub use laws::{counts_once, hears_alike, stands_aside};
pub use outcome::Kinds;
pub use standing::Standing;
