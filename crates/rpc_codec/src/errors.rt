//! Why nothing was decoded or encoded.
ghost use Rattle.rpc_codec.specs.declared.errors.DecodeError.TheVariants as decode_errors;
ghost use Rattle.rpc_codec.specs.declared.errors.EncodeError.TheVariants as encode_errors;

use capn_trees::WriteFault;
use rpc_codec_parts::EnvelopeFault;
use rpc_msg::Memory;
use std::alloc::AllocError;
use std::fmt;
use thiserror::Error;

/// Why no envelope was read.
#[derive(Clone, Copy, Debug, PartialEq, Eq, Drop, Error)]
pub enum DecodeError {
    /// Memory ran out.
    Memory,
    /// The first check that fails.
    Fault(EnvelopeFault),
}

impl fmt::Display for DecodeError {
    fn fmt<W: fmt::Write>(&self, f: &mut fmt::Formatter<W>) -> fmt::Result {
        match self {
            DecodeError::Memory => f.write_str("out of memory"),
            DecodeError::Fault(fault) => fault.fmt(f),
        }
    }
}

impl From<AllocError> for DecodeError {
    ghost use Rattle.std.specs.Prelude.{◌≡◌};

    ghost from_gives = { λ _ e. e ≡ decode_errors.Memory };

    fn from(_refused: AllocError) -> DecodeError {
        DecodeError::Memory
    }
}

impl From<Memory> for DecodeError {
    ghost use Rattle.std.specs.Prelude.{◌≡◌};

    ghost from_gives = { λ _ e. e ≡ decode_errors.Memory };

    fn from(_refused: Memory) -> DecodeError {
        DecodeError::Memory
    }
}

/// What keeps a message from being written.
#[derive(Clone, Copy, Debug, PartialEq, Eq, Drop, Error)]
pub enum EncodeFault {
    /// It is `Other`, or an Unimplemented of that: a number alone is no message.
    NumberAlone,
    /// It passes a limit of the encoding, together with its contents: too many words, or nested too deep.
    Unwritable(WriteFault),
}

impl fmt::Display for EncodeFault {
    fn fmt<W: fmt::Write>(&self, f: &mut fmt::Formatter<W>) -> fmt::Result {
        match self {
            EncodeFault::NumberAlone => f.write_str("a number alone is no message"),
            EncodeFault::Unwritable(fault) => fault.fmt(f),
        }
    }
}

/// Why no frame was written.
#[derive(Clone, Copy, Debug, PartialEq, Eq, Drop, Error)]
pub enum EncodeError {
    /// Memory ran out.
    Memory,
    /// The first reason that there is.
    Fault(EncodeFault),
}

impl fmt::Display for EncodeError {
    fn fmt<W: fmt::Write>(&self, f: &mut fmt::Formatter<W>) -> fmt::Result {
        match self {
            EncodeError::Memory => f.write_str("out of memory"),
            EncodeError::Fault(fault) => fault.fmt(f),
        }
    }
}

impl From<Memory> for EncodeError {
    ghost use Rattle.std.specs.Prelude.{◌≡◌};

    ghost from_gives = { λ _ e. e ≡ encode_errors.Memory };

    fn from(_refused: Memory) -> EncodeError {
        EncodeError::Memory
    }
}
