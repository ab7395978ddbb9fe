// Why nothing is done.
use capn_trees::WriteFault;
use std::alloc::AllocError;
use thiserror::Error;

/// Why nothing is done.
#[derive(Clone, Copy, Debug, PartialEq, Eq, Drop, Error)]
pub enum TreeFault {
    /// Memory ran out.
    #[error("out of memory")]
    Memory,
    /// A limit is passed: of numbers, of elements, or of payloads.
    #[error("a limit is passed")]
    Full,
    /// A capability is not below the number of capabilities.
    #[error("a capability is not in the table")]
    CapCount,
    /// The bytes are no payload, or no text.
    #[error("the bytes are no payload or no text")]
    Malformed,
    /// There is too little room for what is to be handed out.
    #[error("there is too little room")]
    NoRoom,
    /// There is nothing of the kind.
    #[error("there is nothing of the kind")]
    Nothing,
    /// A width is none, or a number has more bits.
    #[error("there is no such number")]
    NoSuchNumber,
}

impl From<AllocError> for TreeFault {
    ghost use Rattle.std.specs.Prelude.{◌≡◌};
    ghost use Rattle.lovendak_c_trees.specs.declared.fault.TreeFault.TheVariants as tree_fault;

    ghost from_gives = { λ _ why. why ≡ tree_fault.Memory };

    fn from(_refused: AllocError) -> TreeFault {
        TreeFault::Memory
    }
}

impl From<WriteFault> for TreeFault {
    ghost use Rattle.std.specs.Prelude.{◌≡◌};
    ghost use Rattle.lovendak_c_trees.specs.Faults.{not_written};

    ghost from_gives = { λ fault why. why ≡ not_written fault };

    fn from(fault: WriteFault) -> TreeFault {
        match fault {
            WriteFault::Memory => TreeFault::Memory,
            WriteFault::CapIndex => TreeFault::CapCount,
            WriteFault::TooLarge => TreeFault::Full,
            WriteFault::BadTag => TreeFault::Full,
            WriteFault::Depth => TreeFault::Full,
            WriteFault::Traversal => TreeFault::Full,
        }
    }
}
