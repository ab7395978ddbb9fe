//! The journal: what happened at two vats, entry by entry.
//!
//! - `entry.rt`: entries. `report.rt`: what they report of deliveries, ends of calls and shorter paths. `laws.rt`: what is proved of the
//!   definitions of the history.
#![tactic(auto)]

mod entry;
mod laws;
mod report;

pub use entry::{Counts, JournalEntry, MadeCall, Origin};
pub use laws::one_call_is_read;
pub use report::{Advanced, Delivery, Ended, Outcome};
pub use rpc_msg;
