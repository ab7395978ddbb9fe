//! Why bytes are no payload, and why a tree can't be written.
ghost use Rattle.std.specs.Prelude.{◌≡◌};
ghost use Rattle.capn_trees.specs.Numbers.{number_of, write_number_of};
ghost use Rattle.capn_trees.specs.declared.faults.PayloadFault.TheVariants as faults;
ghost use Rattle.capn_trees.specs.declared.faults.WriteFault.TheVariants as write_faults;

use crate::tree::Tree;
use std::alloc::AllocError;
use std::fmt;
use thiserror::Error;

/// The first check of a payload's encoding that fails.
#[derive(Clone, Copy, Debug, PartialEq, Eq, Drop, Error)]
pub enum PayloadFault {
    /// Memory ran out. The bytes are well formed.
    Memory,
    /// The bytes end before the segment table, its padding or the segments do.
    Short,
    /// More than 16 segments.
    TooManySegments,
    /// More than 65,536 words in all segments.
    TooLarge,
    /// Bytes after the last segment, or padding that is not zero.
    Trailing,
    /// A pointer leads out of its segment or to no segment, or there is no root pointer.
    OutOfBounds,
    /// A landing pad that is none.
    BadFar,
    /// A composite list whose tag is no struct pointer or promises more than there is.
    BadTag,
    /// A pointer of the fourth kind that is no capability.
    BadOther,
    /// A capability that is not in the table.
    CapIndex,
    /// Contents nested more than 64 deep.
    Depth,
    /// More than 65,536 words visited.
    Traversal,
}

impl PayloadFault {
    /// The fault's number.
    pub fn code(self) -> u16
        ensures { result ≡ number_of self }
    {
        match self {
            PayloadFault::Memory => 1,
            PayloadFault::Short => 2,
            PayloadFault::TooManySegments => 3,
            PayloadFault::TooLarge => 4,
            PayloadFault::Trailing => 5,
            PayloadFault::OutOfBounds => 6,
            PayloadFault::BadFar => 7,
            PayloadFault::BadTag => 8,
            PayloadFault::BadOther => 9,
            PayloadFault::CapIndex => 10,
            PayloadFault::Depth => 11,
            PayloadFault::Traversal => 12,
        }
    }

    /// The fault in words.
    fn words(self) -> &'static str {
        match self {
            PayloadFault::Memory => "out of memory",
            PayloadFault::Short => "the message is cut short",
            PayloadFault::TooManySegments => "too many segments",
            PayloadFault::TooLarge => "too many words",
            PayloadFault::Trailing => "trailing bytes",
            PayloadFault::OutOfBounds => "a pointer out of bounds",
            PayloadFault::BadFar => "a bad far pointer",
            PayloadFault::BadTag => "a bad tag word",
            PayloadFault::BadOther => "an unknown kind of pointer",
            PayloadFault::CapIndex => "a capability index out of range",
            PayloadFault::Depth => "nested too deep",
            PayloadFault::Traversal => "too many words visited",
        }
    }
}

impl fmt::Display for PayloadFault {
    fn fmt<W: fmt::Write>(&self, f: &mut fmt::Formatter<W>) -> fmt::Result {
        f.write_str(self.words())
    }
}

/// Why a tree can't be written. The numbers are those of `PayloadFault`.
#[derive(Clone, Copy, Debug, PartialEq, Eq, Drop, Error)]
pub enum WriteFault {
    /// Memory ran out. The tree can be written.
    Memory,
    /// More than 65,536 words, a section of more than 65,535, or a list of more than 536,870,911
    /// elements without content.
    TooLarge,
    /// A struct in a list that has other lengths than the list says.
    BadTag,
    /// A capability that is not in the table.
    CapIndex,
    /// Contents nested more than 64 deep.
    Depth,
    /// More than 65,536 words would be visited.
    Traversal,
}

impl WriteFault {
    /// The fault's number.
    pub fn code(self) -> u16
        ensures { result ≡ write_number_of self }
    {
        match self {
            WriteFault::Memory => 1,
            WriteFault::TooLarge => 4,
            WriteFault::BadTag => 8,
            WriteFault::CapIndex => 10,
            WriteFault::Depth => 11,
            WriteFault::Traversal => 12,
        }
    }

    /// The fault in words.
    fn words(self) -> &'static str {
        match self {
            WriteFault::Memory => "out of memory",
            WriteFault::TooLarge => "too many words",
            WriteFault::BadTag => "structs of different sizes in a list",
            WriteFault::CapIndex => "a capability index out of range",
            WriteFault::Depth => "nested too deep",
            WriteFault::Traversal => "too many words visited",
        }
    }
}

impl fmt::Display for WriteFault {
    fn fmt<W: fmt::Write>(&self, f: &mut fmt::Formatter<W>) -> fmt::Result {
        f.write_str(self.words())
    }
}

impl From<AllocError> for PayloadFault {
    ghost use Rattle.std.specs.Prelude.{◌≡◌};

    ghost from_gives = { λ _ e. e ≡ faults.Memory };

    fn from(_refused: AllocError) -> PayloadFault {
        PayloadFault::Memory
    }
}

impl From<AllocError> for WriteFault {
    ghost use Rattle.std.specs.Prelude.{◌≡◌};

    ghost from_gives = { λ _ e. e ≡ write_faults.Memory };

    fn from(_refused: AllocError) -> WriteFault {
        WriteFault::Memory
    }
}

/// Why a tree was not put behind other pointers, and the tree.
#[derive(Debug, PartialEq, Eq, Drop, Error)]
#[error("{fault}")]
pub struct PushError {
    /// `Depth` or `Memory`.
    pub fault: WriteFault,
    pub tree: Tree,
}

impl From<PushError> for WriteFault {
    ghost use Rattle.std.specs.Prelude.{◌≡◌};

    ghost from_gives = { λ refused e. e ≡ refused.fault };

    fn from(refused: PushError) -> WriteFault {
        refused.fault
    }
}
