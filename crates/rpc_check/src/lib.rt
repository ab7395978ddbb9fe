//! Whether a trace keeps the laws of two vats: the first entry that breaks one, or how many calls were delivered.
//!
//! - `checker.rt` takes entries and gives the verdict (`verdict.rt`).
//! - `pending.rt` is what it knows while no law is broken, in three parts that each take every entry: `calls.rt` (the
//!   references of both vats; `lines.rt` those of one), `ways.rt` (the messages on their way both ways; `way.rt` those of
//!   one vat, `said.rt` what its questions and answers handed on, list by list, and which is the last of each id;
//!   `releases.rt` what messages release of the other's exports: a list that a flag releases is named by its place, and
//!   counted, as often as it is released, when an entry with tables asks), `downs.rt` (which vats are down).
//! - `handovers.rt` says what one message hands on, `amounts.rt` are sums by id, `agreement.rt` holds two sides of counts
//!   against each other.
//! - In `specs/`, `Breaches` and `Counts` have the definitions of the verdict, `Kept` what the parts say of the entries so
//!   far, `Laws` what the definitions mean.
#![tactic(auto)]

mod agreement;
mod amounts;
mod calls;
mod checker;
mod downs;
mod handovers;
mod laws;
mod lines;
mod pending;
mod releases;
mod said;
mod verdict;
mod way;
mod ways;

pub use checker::{Checker, check};
pub use laws::{same_for_every_id, verdict_is_first};
pub use verdict::Verdict;
