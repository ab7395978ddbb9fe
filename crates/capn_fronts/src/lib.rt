//! The framing of a stream in which a frame may be larger than a message may be: such a frame is kept as its front, and what comes
//! behind that is counted and dropped (docs/encoding.md). What a frame says is not looked at.
//!
//! - `reader.rt`: [`FrontReader`]. `frame.rt`: [`KeptFrame`], what is kept of a frame. `extent.rt`: how far a frame goes.
//! - `laws.rt`: what goes out is the fronts of the frames that came in, as contracts of functions that do nothing.
#![tactic(auto)]

mod extent;
mod frame;
mod laws;
mod reader;

pub use frame::KeptFrame;
pub use laws::{fronts_are_of_the_frames, keeps_the_front, pieces_stand};
pub use reader::FrontReader;
