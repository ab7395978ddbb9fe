//! Before a vat whose answers may fill their table: a question for which it has no room is refused (`overloaded`) in place of
//! taking it down (docs/messages.md, "Peers of other make").
//!
//! - `overload.rt`: [`Overload`], which sees each envelope first. `admission.rt`: what becomes of one. `errors.rt`: what is at
//!   fault.
//! - `refusals.rt`: the refused questions that are not finished.
//! - `clearance.rt`: messages that name one of them, as they are handed on. `replies.rt`: what is said of it.
//! - `laws.rt`: that it stands aside and counts once, as contracts of functions that do nothing.
//!
//! `specs/Overloading.antt` says what each envelope comes to.
#![tactic(auto)]

mod admission;
mod clearance;
mod errors;
mod laws;
mod overload;
mod refusals;
mod replies;

pub use admission::Admission;
pub use errors::{OverloadError, OverloadFault};
pub use laws::{counts_once, stands_aside};
pub use overload::Overload;
pub use replies::overloaded;
