//! What is odd, and breaks nothing.
use crate::act::Kind;
use crate::breach::Use;
use rpc_msg::{ExportId, QuestionId};

/// What of a message is odd. Messages are named by their numbers.
#[derive(Clone, Copy, Debug, PartialEq, Eq, Drop)]
pub enum Oddity {
    /// It gives an export as a promise, or not as one, which was given otherwise in that message and is held.
    OtherKind(Use, ExportId, bool, u64),
    /// It gives a promise that is held and was resolved in that message.
    ResolvedPromise(Use, ExportId, u64),
    /// It gives back none of an export.
    ReleasesNone(ExportId),
    /// The tail call of that message is answered with results.
    ResultsOfTailCall(u64),
    /// It is a Return of a kind that is not known, for that question.
    UnknownReturn(QuestionId),
    /// It is no message of levels 0 and 1.
    UnknownKind(Kind),
}
