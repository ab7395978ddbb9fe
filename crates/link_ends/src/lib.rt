//! The ends of the two vats of a pair, over two rings, with no lock between them; and what is promised of two ends that are put
//! side by side. An application with two vats on two threads depends on this crate.
//!
//! - `ends.rt`: [`EndA`] and [`EndB`]: a core with its log and its ends of the rings. `links.rt`: [`link`] makes both.
//! - The commands by name: `calls.rt`, `refs.rt`, `promises.rt`, `tasks.rt`; `granted.rt`: commands by what they grant. What is
//!   refused is refused as `vat_core::Core` says, or with `Down`. One that is refused with `Down` may have taken the vat down
//!   because there was no room.
//! - `seat.rt`: [`Seat`]: a core with its log and no rings. It keeps the frames that it makes, and is handed those that come.
//! - `gathered.rt`: [`gather`] puts two ends side by side. Their one journal tells a run of two vats, so all that is promised
//!   of every run holds of it ([`Gathered::journal`]).
#![tactic(auto)]

mod calls;
mod ends;
mod gathered;
mod granted;
mod links;
mod promises;
mod refs;
mod seat;
mod tasks;

pub use ends::{AtA, AtB, EndA, EndB, VatEnd};
pub use gathered::{Gathered, gather};
pub use link_logs::Note;
pub use link_rings::{Entry, LinkFault, MOST_PLACES, Reads};
pub use link_sides::{Answer, Refused, VatSide};
pub use links::link;
pub use rpc_journal::JournalEntry;
use rpc_machine::Effects;
use rpc_msg::Message;
pub use rpc_msg::Vat;
pub use seat::Seat;

/// A message on its way from one vat to the other.
pub type Frame = link_rings::Frame<Message>;

/// What comes of a turn of an end.
pub type Turn = link_rings::Turn<Effects>;
