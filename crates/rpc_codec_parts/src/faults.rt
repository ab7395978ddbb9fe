//! Why bytes are no message of `rpc.capnp`, and what else ends the reading of a part.
ghost use Rattle.std.specs.Prelude.{◌≡◌};
ghost use Rattle.rpc_codec_parts.specs.Numbers.{number_of};
ghost use Rattle.rpc_codec_parts.specs.declared.faults.ReadError.TheVariants as errors;

use capn_trees::PayloadFault;
use rpc_msg::Memory;
use std::alloc::{AllocError, AllocFailed};
use std::fmt;
use thiserror::Error;

/// The first check of an envelope that fails: docs/messages.md has their order.
#[derive(Clone, Copy, Debug, PartialEq, Eq, Drop, Error)]
pub enum EnvelopeFault {
    /// The bytes are no message of the encoding, or pass its limits. It is never `Memory`.
    Encoding(PayloadFault),
    /// A pointer leads to something of another kind than its field has.
    WrongKind,
    /// The bytes of a reason don't end with a zero.
    BadText,
    /// A payload has more than 4,096 descriptors.
    TooManyDescriptors,
    /// An Unimplemented of an Unimplemented.
    NestedUnimplemented,
    /// A content points at a capability that has no descriptor, or is too large to be written by itself.
    BadContent,
    /// A Return of no known kind, or with results that are not understood: its question would stay open for good.
    UnknownReturn,
}

impl EnvelopeFault {
    /// The fault's number.
    pub fn code(self) -> u16
        ensures { result ≡ number_of self }
    {
        match self {
            EnvelopeFault::Encoding(fault) => fault.code(),
            EnvelopeFault::WrongKind => 60,
            EnvelopeFault::BadText => 61,
            EnvelopeFault::TooManyDescriptors => 62,
            EnvelopeFault::NestedUnimplemented => 63,
            EnvelopeFault::BadContent => 64,
            EnvelopeFault::UnknownReturn => 65,
        }
    }
}

impl fmt::Display for EnvelopeFault {
    fn fmt<W: fmt::Write>(&self, f: &mut fmt::Formatter<W>) -> fmt::Result {
        match self {
            EnvelopeFault::Encoding(fault) => fault.fmt(f),
            EnvelopeFault::WrongKind => f.write_str("a pointer to something of another kind"),
            EnvelopeFault::BadText => f.write_str("a text without its final zero"),
            EnvelopeFault::TooManyDescriptors => f.write_str("too many descriptors"),
            EnvelopeFault::NestedUnimplemented => f.write_str("unimplemented of unimplemented"),
            EnvelopeFault::BadContent => f.write_str("a content without its capabilities"),
            EnvelopeFault::UnknownReturn => f.write_str("a return of no known kind"),
        }
    }
}

/// What ends the reading of a part.
#[derive(Clone, Copy, Debug, PartialEq, Eq, Drop)]
pub enum ReadError {
    /// Memory ran out.
    Memory,
    /// A union has a value that the profile doesn't have, or a path has more than 16 steps. Nothing of the message is
    /// taken then.
    Unknown,
    /// A check fails.
    Fault(EnvelopeFault),
}

impl From<AllocError> for ReadError {
    ghost use Rattle.std.specs.Prelude.{◌≡◌};

    ghost from_gives = { λ _ e. e ≡ errors.Memory };

    fn from(_refused: AllocError) -> ReadError {
        ReadError::Memory
    }
}

impl<T: Drop> From<AllocFailed<T>> for ReadError {
    ghost use Rattle.std.specs.Prelude.{◌≡◌};

    ghost from_gives = { λ _ e. e ≡ errors.Memory };

    fn from(_refused: AllocFailed<T>) -> ReadError {
        ReadError::Memory
    }
}

impl From<Memory> for ReadError {
    ghost use Rattle.std.specs.Prelude.{◌≡◌};

    ghost from_gives = { λ _ e. e ≡ errors.Memory };

    fn from(_refused: Memory) -> ReadError {
        ReadError::Memory
    }
}
