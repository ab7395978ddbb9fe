//! Why an input is given up.

use rpc_machine::Refusal;
use rpc_msg::{Memory, PayloadFault};
use std::alloc::{AllocError, AllocFailed};
use thiserror::Error;

/// A step did not do what is measured.
#[derive(Clone, Copy, Debug, Drop, Error)]
pub(crate) enum Astray {
    #[error("out of memory")]
    Memory,
    #[error("no input of that name")]
    NoInput,
    #[error("no promise")]
    NoPromise,
    #[error("a path of more than 16 steps")]
    LongPath,
    #[error("{0}")]
    Contents(PayloadFault),
    #[error("a command was refused: {0}")]
    Refused(Refusal),
    #[error("call: it was not refused")]
    NotRefused,
    #[error("the vat went down with {0}")]
    Down(u16),
    #[error("{sent} messages sent with {passed} descriptors and {flags} true flags, {delivered} calls delivered")]
    Otherwise {
        sent: u64,
        passed: u64,
        flags: u64,
        delivered: u64,
    },
    #[error("the counts are others")]
    OtherCounts,
}

impl From<Memory> for Astray {
    fn from(_refused: Memory) -> Astray {
        Astray::Memory
    }
}

impl From<AllocError> for Astray {
    fn from(_refused: AllocError) -> Astray {
        Astray::Memory
    }
}

impl<T: Drop> From<AllocFailed<T>> for Astray {
    fn from(_refused: AllocFailed<T>) -> Astray {
        Astray::Memory
    }
}

impl From<PayloadFault> for Astray {
    fn from(fault: PayloadFault) -> Astray {
        Astray::Contents(fault)
    }
}

impl From<Refusal> for Astray {
    fn from(refusal: Refusal) -> Astray {
        Astray::Refused(refusal)
    }
}
