//! Between the frames of a peer and a vat: a Call or a Return that breaks a limit of messages costs its call, and not the connection
//! (docs/messages.md, "Messages that are too large").
//!
//! - `opening.rt`: what a frame says, or which limit it breaks. `front.rt`: what is read in its front. `limit.rt`: the limits.
//! - `contents.rt`: how much a frame brings.
//! - `adapter.rt`: [`SparingAdapter`], what comes of it, over a [`PeerAdapter`](peer_adapter::PeerAdapter). `returned.rt`: the
//!   questions whose Return broke a limit.
//! - `laws.rt`: that it stands aside, what a Call comes to, and how large contents may be, as contracts of functions that do nothing.
#![tactic(auto)]

mod adapter;
mod contents;
mod front;
mod laws;
mod limit;
mod opening;
mod returned;

pub use adapter::SparingAdapter;
pub use front::{Large, read_front};
pub use laws::{calls_fail, contents_are_small, stands_aside};
pub use limit::Limit;
pub use opening::{Opened, open, open_front};
