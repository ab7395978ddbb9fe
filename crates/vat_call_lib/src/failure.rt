//! Why a script is not played to its end.
ghost use Rattle.vat_call_lib.specs.declared.failure.BrokenOff.TheVariants as broken;
ghost use Rattle.vat_call_lib.specs.declared.failure.Failure.TheVariants as failure;

use rpc_msg::Memory;
use script_language::{LineFault, NameFault};
use std::alloc::AllocError;
use thiserror::Error;

/// Why a conversation is broken off.
#[derive(Clone, Copy, Debug, PartialEq, Eq, Drop, Error)]
pub enum BrokenOff {
    /// A growth was refused, to the player or for a command.
    #[error("out of memory")]
    Memory,
    /// The peer's bytes can't be read.
    #[error("the input can't be read")]
    Unread,
    /// The bytes for the peer can't be written.
    #[error("the output can't be written")]
    Unwritten,
    /// What is told can't be written.
    #[error("what is told can't be written")]
    Untold,
}

/// Why a script is not played to its end. Lines are counted from 1.
#[derive(Clone, Copy, Debug, PartialEq, Eq, Drop, Error)]
pub enum Failure {
    /// Its bytes are not UTF-8.
    #[error("the script is not UTF-8")]
    NotText,
    /// The line with that number is the first that is none.
    #[error("script line {0}: {1}")]
    Line(usize, LineFault),
    /// The line with that number is the first for another vat than `a`.
    #[error("script line {0}: a line of the other vat")]
    OtherVat(usize),
    /// The line with that number names something that is not there when its turn comes.
    #[error("script line {0}: {1}")]
    Unnamed(usize, NameFault),
    /// The conversation is broken off.
    #[error("{0}")]
    BrokenOff(BrokenOff),
}

impl From<AllocError> for BrokenOff {
    ghost use Rattle.std.specs.Prelude.{◌≡◌};

    ghost from_gives = { λ _ why. why ≡ broken.Memory };

    fn from(_want: AllocError) -> BrokenOff {
        BrokenOff::Memory
    }
}

impl From<Memory> for BrokenOff {
    ghost use Rattle.std.specs.Prelude.{◌≡◌};

    ghost from_gives = { λ _ why. why ≡ broken.Memory };

    fn from(_want: Memory) -> BrokenOff {
        BrokenOff::Memory
    }
}

impl From<BrokenOff> for Failure {
    ghost use Rattle.std.specs.Prelude.{◌≡◌};

    ghost from_gives = { λ why given. given ≡ failure.BrokenOff why };

    fn from(why: BrokenOff) -> Failure {
        Failure::BrokenOff(why)
    }
}

impl From<Memory> for Failure {
    ghost use Rattle.std.specs.Prelude.{◌≡◌};

    ghost from_gives = { λ _ why. why ≡ failure.BrokenOff broken.Memory };

    fn from(_want: Memory) -> Failure {
        Failure::BrokenOff(BrokenOff::Memory)
    }
}
