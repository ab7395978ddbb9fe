//! Why bytes of a stream are not taken.

use capn_trees::PayloadFault;
use std::alloc::AllocError;
use std::fmt;
use thiserror::Error;

/// Why a piece of a stream is not taken.
#[derive(Clone, Copy, Debug, PartialEq, Eq, Drop, Error)]
pub enum StreamError {
    /// Memory ran out. The reader is as it was, and the same piece may be handed to it again.
    Memory,
    /// What comes is no frame within the limits. The reader has failed for good.
    Fault(PayloadFault),
}

impl fmt::Display for StreamError {
    fn fmt<W: fmt::Write>(&self, f: &mut fmt::Formatter<W>) -> fmt::Result {
        match self {
            StreamError::Memory => f.write_str("out of memory"),
            StreamError::Fault(fault) => fault.fmt(f),
        }
    }
}

impl From<AllocError> for StreamError {
    ghost use Rattle.std.specs.Prelude.{◌≡◌};
    ghost use Rattle.capn_stream.specs.declared.error.StreamError.TheVariants as errors;

    ghost from_gives = { λ _ e. e ≡ errors.Memory };

    fn from(_refused: AllocError) -> StreamError {
        StreamError::Memory
    }
}
