//! Paths from a payload's root to a capability.

/// One step of a path (`PromisedAnswer.Op`).
#[derive(Clone, Copy, Debug, PartialEq, Eq, PartialOrd, Ord, Hash, Drop)]
pub enum Op {
    /// Stays.
    Noop,
    /// Goes to the pointer of that number, counted in the pointer section of a struct.
    Field(u16),
}

/// What stands at a path.
#[derive(Clone, Copy, Debug, PartialEq, Eq, Drop)]
pub enum CapAt {
    /// The capability of that index.
    Cap(u32),
    /// A null pointer.
    Null,
    /// Something else, or nothing.
    NotCap,
}
