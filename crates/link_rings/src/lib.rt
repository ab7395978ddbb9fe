//! The two ends of a link, each to be worked on a thread of its own, with no lock between them.
//!
//! An [`End`] is a side that acts ([`Party`]), a log of its steps, and its ends of two rings: it puts its messages into
//! frames and pushes them into one ring, and pops the other side's frames from the other. [`link`] makes two, and
//! [`Gathered::of`] puts them side by side at the end: their logs then have one order, in which all of it could have
//! happened in one thread (docs/threads.md). A [`Seat`] is a side with its log and no rings.
//!
//! What a step is, this crate doesn't know: all of it is proved of any side.
//!
//! - `party.rt`: what a side is. `logged_side.rt`: a side with its log (`entry.rt`) and the frames that wait (`queue.rt`, `frame.rt`).
//! - `links.rt`: both ends are made. `end.rt`: an end with its rings. `seat.rt`: a side with no rings. `turn.rt`: what comes of a turn.
//! - `gathered.rt`: two ends side by side. `merge.rt`: the entries of their logs are read in one order.
//! - `fault.rt`: what goes wrong with a link.
#![tactic(auto)]

mod end;
mod entry;
mod fault;
mod frame;
mod gathered;
mod links;
mod logged_side;
mod merge;
mod party;
mod queue;
mod seat;
mod turn;

pub use end::End;
pub use entry::Entry;
pub use fault::LinkFault;
pub use frame::Frame;
pub use gathered::Gathered;
pub use links::{MOST_PLACES, link};
pub use merge::Reads;
pub use party::Party;
pub use queue::Waiting;
pub use seat::Seat;
pub use turn::Turn;
