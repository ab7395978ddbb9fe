//! The framing of a stream: bytes that come in any pieces are parted into frames, each the bytes of one message, by the
//! tables of segments at their fronts (docs/encoding.md). What a frame says is not looked at.
#![tactic(auto)]

mod error;
mod frame;
mod front;
mod laws;
mod reader;

pub use error::StreamError;
pub use frame::Frame;
pub use front::{Front, next_frame};
pub use laws::{frames_are_the_bytes, fronts_stay, messages_are_frames, pieces_do_not_matter};
pub use reader::FrameReader;
