ghost use Rattle.std.specs.Prelude.{◌≡◌};
ghost use Rattle.link_rings.specs.Links.{fault_number};

use thiserror::Error;

/// What goes wrong with a link: why it is not made or not worked, or which frame shuts an end.
#[derive(Clone, Copy, Debug, PartialEq, Eq, Drop, Error)]
pub enum LinkFault {
    /// A growth was refused.
    #[error("out of memory")]
    Memory,
    /// A ring has from 1 to 65,536 places.
    #[error("a ring of no place, or of more than 65,536")]
    BadCapacity,
    /// The number of a frame is not the count of those received.
    #[error("a frame out of order")]
    BadSeq,
    /// A frame acknowledges more than was made.
    #[error("a frame that acknowledges what was not made")]
    BadAck,
    /// There is no thread.
    #[error("no thread")]
    NoThread,
}

impl LinkFault {
    /// Its number, as Aborts and traces show it.
    pub fn code(self) -> u16
        ensures { result ≡ fault_number self }
    {
        match self {
            LinkFault::Memory => 1,
            LinkFault::BadCapacity => 40,
            LinkFault::BadSeq => 41,
            LinkFault::BadAck => 42,
            LinkFault::NoThread => 43,
        }
    }
}
