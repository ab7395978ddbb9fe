//! Why a measurement is given up.

use link_ends::LinkFault;
use rpc_machine::Refusal;
use rpc_msg::Memory;
use thiserror::Error;

/// A step did not do what is measured.
#[derive(Clone, Copy, Debug, PartialEq, Eq, Drop, Error)]
pub(crate) enum Astray {
    #[error("out of memory")]
    Memory,
    #[error("there is no link: {0}")]
    NoLink(LinkFault),
    #[error("a command was refused: {0}")]
    Refused(Refusal),
    #[error("a vat went down: {0}")]
    Down(u16),
    #[error("no frame came")]
    NoFrame,
    #[error("a step did something else")]
    Otherwise,
}

impl From<Memory> for Astray {
    fn from(_refused: Memory) -> Astray {
        Astray::Memory
    }
}

impl From<Refusal> for Astray {
    fn from(refusal: Refusal) -> Astray {
        Astray::Refused(refusal)
    }
}
