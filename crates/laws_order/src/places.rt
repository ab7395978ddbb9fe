//! The nodes, groups and references of a vat pair. A vat is a `bool`; numbers are never used again.

/// A place where a call can arrive.
pub enum Node {
    /// An object: its vat and number.
    Object(bool, u64),
    /// An own promise of a vat: its vat and number.
    Promise(bool, u64),
    /// A place in the outcome of a call: the vat that answers, the outcome's number, the pointer field.
    Field(bool, u64, u16),
}

/// The nodes that settle together and share one list of waiting calls.
pub enum Group {
    /// A node for itself.
    Alone(Node),
    /// All the fields of one outcome.
    Outcome(bool, u64),
}

/// A reference: the vat that holds it, and its number.
pub struct Reference {
    pub vat: bool,
    pub number: u64,
}
