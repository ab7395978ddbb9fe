//! Two vats on two threads, worked by the lines of one script.
//!
//! `pair_run.rt`: [`run_pair`] works both ends of a link (of `link_ends`) on two threads, and puts them side by side. `worker.rt`: an
//! end as its worker uses it.
#![tactic(auto)]

mod pair_run;
mod worker;

pub use link_ends::{
    Answer, AtA, AtB, EndA, EndB, Entry, Frame, Gathered, JournalEntry, LinkFault, MOST_PLACES,
    Note, Reads, Refused, Seat, Turn, Vat, VatEnd, VatSide, gather, link,
};
pub use pair_run::{PairRun, run_pair};
