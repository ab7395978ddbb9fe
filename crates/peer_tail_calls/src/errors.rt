//! What an adapter refuses.
ghost use Rattle.std.specs.Prelude.{◌≡◌};
ghost use Rattle.peer_tail_calls.specs.Numbers.{number_of};
ghost use Rattle.peer_tail_calls.specs.declared.errors.AdapterError.TheVariants as errors;

use rpc_msg::Memory;
use thiserror::Error;

/// Why a connection can't go on behind what came.
#[derive(Clone, Copy, Debug, PartialEq, Eq, Drop, Error)]
pub enum AdapterFault {
    /// A Return takes the results of a question that is no open tail call, or whose results are taken already.
    #[error("a return takes results that are not kept for it")]
    NothingToTake,
    /// A Return says that results are kept for a tail call, and this vat makes none.
    #[error("results kept elsewhere that nobody wanted there")]
    NoTailCall,
}

impl AdapterFault {
    /// The fault's number.
    pub fn code(self) -> u16
        ensures { result ≡ number_of self }
    {
        match self {
            AdapterFault::NothingToTake => 66,
            AdapterFault::NoTailCall => 67,
        }
    }
}

/// Why an adapter did nothing.
#[derive(Clone, Copy, Debug, PartialEq, Eq, Drop, Error)]
pub enum AdapterError {
    /// Memory ran out.
    #[error("out of memory")]
    Memory,
    /// What came is at fault.
    #[error("{0}")]
    Fault(AdapterFault),
}

impl From<Memory> for AdapterError {
    ghost use Rattle.std.specs.Prelude.{◌≡◌};

    ghost from_gives = { λ _ e. e ≡ errors.Memory };

    fn from(_refused: Memory) -> AdapterError {
        AdapterError::Memory
    }
}
