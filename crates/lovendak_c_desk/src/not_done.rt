// Why a call is not done.
ghost use Rattle.std.specs.Prelude.{◌≡◌};
ghost use Rattle.lovendak_c_desk.specs.Given.{lacks_memory};

use rpc_msg::Memory;
use std::alloc::AllocError;
use thiserror::Error;
use vat_connection::Refusal;

/// Why a call is not done.
#[derive(Clone, Copy, Debug, PartialEq, Eq, Drop, Error)]
pub enum NotDone {
    /// The vat refuses it, or memory runs out, or a limit of payloads is passed.
    #[error("{0}")]
    Refused(Refusal),
    /// There is no vat.
    #[error("there is no vat")]
    Empty,
    /// There is a vat already.
    #[error("there is a vat already")]
    InUse,
    /// The bytes are no payload, or no text.
    #[error("the bytes are no payload or no text")]
    Malformed,
    /// There is too little room for what is to be handed out.
    #[error("there is too little room")]
    NoRoom,
    /// There is nothing to be handed out.
    #[error("there is nothing")]
    Nothing,
    /// A number stands for nothing here.
    #[error("the number stands for nothing")]
    NoSuchNumber,
}

impl From<Memory> for NotDone {
    ghost use Rattle.std.specs.Prelude.{◌≡◌};
    ghost use Rattle.lovendak_c_desk.specs.Given.{lacks_memory};

    ghost from_gives = { λ _ why. why ≡ lacks_memory };

    fn from(_want: Memory) -> NotDone {
        NotDone::Refused(Refusal::Memory)
    }
}

impl From<AllocError> for NotDone {
    ghost use Rattle.std.specs.Prelude.{◌≡◌};
    ghost use Rattle.lovendak_c_desk.specs.Given.{lacks_memory};

    ghost from_gives = { λ _ why. why ≡ lacks_memory };

    fn from(_want: AllocError) -> NotDone {
        NotDone::Refused(Refusal::Memory)
    }
}
