//! A client that plays the lines of a script over a pair of streams (docs/script.md, "A client by a script").
//!
//! - `script.rt`: the lines of a script for it. `player.rt`: a vat with its streams, and how it plays lines; `acts.rt`: what it does
//!   for a line, and for what its peer sends.
//! - `frames.rt`: frames are read one at a time. `report.rt`: what is told.
//! - `end.rt`: how a conversation ends. `failure.rt`: why it fails.
#![tactic(auto)]

mod acts;
mod end;
mod failure;
mod frames;
mod player;
mod report;
mod script;

pub use end::Ending;
pub use failure::Failure;
pub use player::Player;
pub use script::read_lines;
