//! What waits in a vat, with the names that it holds: own promises, kept outcomes and embargoes, and the calls that were
//! taken out to be routed.
//!
//! - `promises.rt`, `outcomes.rt`, `embargoes.rt`: each kind, with the calls that wait there.
//! - `taken.rt`: the next of the calls that were taken out. `names.rt`: what comes names what it holds.
//!
//! What comes there names what it holds. Calls that are taken out to be routed stay named until each is handed out. An
//! outcome that may have to go, once it is known or its calls are taken out, is noted if no field of it is named.
#![tactic(auto)]

mod embargoes;
mod names;
mod outcomes;
mod promises;
mod taken;

pub use embargoes::{hold_under, lift, open_embargo};
pub use outcomes::{hold_for_field, know, new_outcome, remove_outcome, take_held};
pub use promises::{fix, hold_for_promise, open_promise, remove_promise};
pub use taken::next_taken;
