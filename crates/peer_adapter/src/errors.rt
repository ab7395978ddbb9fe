//! What an adapter refuses.
ghost use Rattle.std.specs.Prelude.{◌≡◌};
ghost use Rattle.peer_adapter.specs.Numbers.{number_of};
ghost use Rattle.peer_adapter.specs.declared.errors.PeerError.TheVariants as errors;

use peer_overload::OverloadFault;
use peer_tail_calls::AdapterFault;
use rpc_msg::Memory;
use thiserror::Error;

/// Why a connection can't go on behind what came.
#[derive(Clone, Copy, Debug, PartialEq, Eq, Drop, Error)]
pub enum PeerFault {
    /// Of a question that was refused.
    #[error("{0}")]
    Overload(OverloadFault),
    /// Of a tail call.
    #[error("{0}")]
    Tail(AdapterFault),
}

impl PeerFault {
    /// The fault's number.
    pub fn code(self) -> u16
        ensures { result ≡ number_of self }
    {
        match self {
            PeerFault::Overload(fault) => fault.code(),
            PeerFault::Tail(fault) => fault.code(),
        }
    }
}

/// Why an adapter did nothing.
#[derive(Clone, Copy, Debug, PartialEq, Eq, Drop, Error)]
pub enum PeerError {
    /// Memory ran out.
    #[error("out of memory")]
    Memory,
    /// What came is at fault.
    #[error("{0}")]
    Fault(PeerFault),
}

impl From<Memory> for PeerError {
    ghost use Rattle.std.specs.Prelude.{◌≡◌};

    ghost from_gives = { λ _ e. e ≡ errors.Memory };

    fn from(_refused: Memory) -> PeerError {
        PeerError::Memory
    }
}
