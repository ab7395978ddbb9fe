//! Two connections and the bytes on their way between them, in one process, with a journal of what the two applications did and
//! were told. An application is tested over it, and it is the place where what is promised of two vats over bytes is the contract
//! of a call: `Joined::journal`.
//!
//! - `joined.rt`: `Joined`, and what may be done with it. `entry.rt`: what the journal says. `stream.rt`: bytes on their way.
//! - `acts.rt`: what is done at one of the two, and noted. `copies.rt`: commands and events in memory of their own.
//! - `laws.rt`: what is promised of two connections, also of two processes that keep logs, on functions that run no code.
#![tactic(auto)]

mod acts;
mod copies;
mod entry;
mod joined;
mod laws;
mod stream;

pub use entry::JoinedEntry;
pub use joined::Joined;
pub use laws::{joined_keep_promises, logs_keep_promises};
