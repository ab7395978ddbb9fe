//! Why a log is none.
use std::alloc::AllocError;
use thiserror::Error;

/// Why the lines of a log can't be read any further. Lines are counted from 1.
#[derive(Clone, Copy, Debug, PartialEq, Eq, Drop, Error)]
pub enum LogFault {
    /// Bytes of a piece are missing, and the line has none: its number.
    #[error("line {0}: no hexadecimal")]
    NoBytes(u64),
    /// The line has more bytes than its piece lacks: its number, how many bytes the piece has with them, and how many
    /// its head announced.
    #[error("line {0}: {1} bytes where {2} were announced")]
    TooMany(u64, u64, u64),
    /// The line is a head, and bytes of the piece before are missing: its number, how many bytes were announced, and how
    /// many came.
    #[error("line {0}: a piece of {1} bytes has {2}")]
    TooFew(u64, u64, u64),
    /// The bytes of an end do not go on where they ended: the number of the line, where its piece begins, and where it
    /// was to begin.
    #[error("line {0}: from={1} where {2} was expected: two connections in one log, or its beginning is missing")]
    Gap(u64, u64, u64),
    /// The log ends inside a piece: how many bytes were announced, and how many came.
    #[error("the log ends inside a piece, of whose {0} bytes it has {1}")]
    CutShort(u64, u64),
}

/// Why a line was not taken.
#[derive(Clone, Copy, Debug, PartialEq, Eq, Drop, Error)]
pub enum LogError {
    /// A growth was refused.
    #[error("out of memory")]
    Memory,
    /// The lines are no log.
    #[error("{0}")]
    Fault(LogFault),
}

impl From<AllocError> for LogError {
    ghost use Rattle.std.specs.Prelude.{◌≡◌};
    ghost use Rattle.look_pieces.specs.declared.fault.LogError.TheVariants as error;

    ghost from_gives = { λ _ why. why ≡ error.Memory };

    fn from(_refused: AllocError) -> LogError {
        LogError::Memory
    }
}
