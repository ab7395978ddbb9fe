//! How a conversation ends.

use program_faults::ShownFault;
use std::fmt;

/// How a conversation ended.
#[derive(Clone, Copy, Debug, PartialEq, Eq, Drop)]
pub enum Ending {
    /// The lines are over, each call has its outcome or was finished, and each task was answered; and whether anything is left
    /// between the two vats.
    Done { left: bool },
    /// The vat went down before, with that number: 0 if the peer's stream ended.
    Down(u16),
}

impl Ending {
    /// Whether all was done.
    pub fn is_done(&self) -> bool {
        match self {
            Ending::Done { .. } => true,
            Ending::Down(_) => false,
        }
    }
}

impl fmt::Display for Ending {
    fn fmt<W: fmt::Write>(&self, f: &mut fmt::Formatter<W>) -> fmt::Result {
        match self {
            Ending::Done { left: false } => write!(f, "done, nothing was left"),
            Ending::Done { left: true } => write!(f, "done, something was left"),
            Ending::Down(number) => write!(f, "down {}", ShownFault(*number)),
        }
    }
}
