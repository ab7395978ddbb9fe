//! Captured bytes of a conversation as pieces, each with its end and its time: the lines that `socat -x` writes
//! (docs/looking.md).
//!
//! - `piece.rt`: a piece, and the two ends. `log.rt` reads the lines of a log one by one, `line.rt` says what one line is,
//!   `words.rt`, `clock.rt` and `digits.rt` read its parts, `fault.rt` says why a log is none.
#![tactic(auto)]

mod clock;
mod digits;
mod fault;
mod line;
mod log;
mod piece;
mod words;

pub use fault::{LogError, LogFault};
pub use line::Head;
pub use log::Log;
pub use piece::{Piece, Side};
