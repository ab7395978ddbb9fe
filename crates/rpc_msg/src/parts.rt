use crate::ids::{ExportId, ImportId, QuestionId};
use crate::path::Path;

/// Where a call goes, or a Disembargo (`MessageTarget`).
#[derive(Clone, Copy, Debug, PartialEq, Eq, PartialOrd, Ord, Hash, Drop)]
pub enum Target {
    /// An export of the receiver, which the sender has as an import (`importedCap`): an object or a promise.
    ImportedCap(ImportId),
    /// What stands at a path of the results of a question that the sender asked (`promisedAnswer`). The results need
    /// not be there yet: that is pipelining. The question's Finish must not have been sent. Of a level 0 vat the
    /// standard asks this for a Bootstrap's results alone.
    PromisedAnswer(QuestionId, Path),
}

/// A capability in a message, as its sender sees it (`CapDescriptor`).
///
/// With each of the two sender kinds the receiver gets one more reference to that export of the sender: it adds one
/// to the export's count, in every message in which it stands. The receiver gives references back by a Release or by
/// a release flag. The other kinds count nothing. Left out: `thirdPartyHosted`, of level 3, and attached file
/// descriptors.
#[derive(Clone, Copy, Debug, PartialEq, Eq, PartialOrd, Ord, Hash, Drop)]
pub enum Descriptor {
    /// No capability (`none`). What points to it is null here; the standard has it for a capability that was taken
    /// out of a message again.
    None,
    /// An object of the sender, by the sender's export id, new or known (`senderHosted`).
    SenderHosted(ExportId),
    /// A promise of the sender, by the sender's export id, new or known (`senderPromise`). One Resolve will follow
    /// for it, however often it was given; none need follow if it was given back before. After its Resolve the id
    /// is not given again until it is free.
    SenderPromise(ExportId),
    /// An object or a promise of the receiver, by the receiver's export id (`receiverHosted`). The sender must have
    /// it as an import.
    ReceiverHosted(ImportId),
    /// What stands at a path of the results of a question that the sender asked the receiver (`receiverAnswer`). Its
    /// Finish must not have been sent.
    ReceiverAnswer(QuestionId, Path),
}
