//! Why a message did not go out.
ghost use Rattle.rpc_outgoing.specs.declared.errors.WriteError.TheVariants as write_errors;

use rpc_codec::EncodeError;
use rpc_msg::Memory;
use std::fmt;
use thiserror::Error;

/// Why a message did not go out.
#[derive(Clone, Copy, Debug, PartialEq, Eq, Drop, Error)]
pub enum WriteError {
    /// It has no frame, or memory ran out for it.
    Encode(EncodeError),
    /// It asks a question or names an export by an id of 4,096 or more, or it has not just one descriptor for each capability
    /// of its contents, or more than 4,096. No vat says one.
    Unsound,
}

impl fmt::Display for WriteError {
    fn fmt<W: fmt::Write>(&self, f: &mut fmt::Formatter<W>) -> fmt::Result {
        match self {
            WriteError::Encode(error) => error.fmt(f),
            WriteError::Unsound => f.write_str("an id or a table of capabilities that no vat says"),
        }
    }
}

impl From<EncodeError> for WriteError {
    ghost use Rattle.std.specs.Prelude.{◌≡◌};

    ghost from_gives = { λ e made. made ≡ write_errors.Encode e };

    fn from(error: EncodeError) -> WriteError {
        WriteError::Encode(error)
    }
}

impl From<Memory> for WriteError {
    ghost use Rattle.std.specs.Prelude.{◌≡◌};
    ghost use Rattle.rpc_codec.specs.declared.errors.EncodeError.TheVariants as encode_errors;

    ghost from_gives = { λ _ made. made ≡ write_errors.Encode encode_errors.Memory };

    fn from(_refused: Memory) -> WriteError {
        WriteError::Encode(EncodeError::Memory)
    }
}
