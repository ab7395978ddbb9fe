use rpc_journal::rpc_msg::{ExportId, ObjectId, Path, QuestionId};

/// Why a node is broken.
#[derive(Clone, Copy, Debug, PartialEq, Eq, PartialOrd, Ord, Hash, Drop)]
pub enum Reason {
    /// It stands for null, or for a descriptor that says none.
    NullCapability,
    /// It stands for a place of a payload at which there is something else than a capability.
    NotACapability,
    /// It was promised, and the promise was rejected or its outcome was an exception.
    BrokenPromise,
}

/// A place within a vat to which a call can go. The paths of nodes have no Noops.
#[derive(Clone, Copy, Debug, PartialEq, Eq, PartialOrd, Ord, Hash, Drop)]
pub enum Node {
    /// An object of this vat's application.
    Object(ObjectId),
    /// A promise of this vat, by the key that the vat picked for it.
    Promise(u64),
    /// What stands at a path of an outcome that is kept at this vat, by the outcome's key.
    Field(u64, Path),
    /// An object or promise of the other vat, by the other vat's export id.
    Import(ExportId),
    /// What stands at a path of the answer of a question that this vat asked.
    Pipe(QuestionId, Path),
    /// No place: every call that goes there fails.
    Broken(Reason),
}
