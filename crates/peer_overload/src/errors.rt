//! What is at fault.
ghost use Rattle.std.specs.Prelude.{◌≡◌};
ghost use Rattle.peer_overload.specs.Numbers.{number_of};
ghost use Rattle.peer_overload.specs.declared.errors.OverloadError.TheVariants as errors;

use rpc_msg::Memory;
use thiserror::Error;

/// Why a connection can't go on behind what came.
#[derive(Clone, Copy, Debug, PartialEq, Eq, Drop, Error)]
pub enum OverloadFault {
    /// A question comes under the id of a refused one that is not finished.
    #[error("a question id is in use")]
    QuestionInUse,
    /// There are as many refused questions that are not finished as there may be.
    #[error("too many refused questions are not finished")]
    TooManyRefused,
}

impl OverloadFault {
    /// The fault's number.
    pub fn code(self) -> u16
        ensures { result ≡ number_of self }
    {
        match self {
            OverloadFault::QuestionInUse => 20,
            OverloadFault::TooManyRefused => 68,
        }
    }
}

/// Why nothing was done.
#[derive(Clone, Copy, Debug, PartialEq, Eq, Drop, Error)]
pub enum OverloadError {
    /// Memory ran out.
    #[error("out of memory")]
    Memory,
    /// What came is at fault.
    #[error("{0}")]
    Fault(OverloadFault),
}

impl From<Memory> for OverloadError {
    ghost use Rattle.std.specs.Prelude.{◌≡◌};

    ghost from_gives = { λ _ e. e ≡ errors.Memory };

    fn from(_refused: Memory) -> OverloadError {
        OverloadError::Memory
    }
}
