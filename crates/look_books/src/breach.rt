//! What breaks the protocol.
use crate::act::Kind;
use rpc_msg::{EmbargoId, ExportId, QuestionId};

/// What a message names a capability for.
#[derive(Clone, Copy, Debug, PartialEq, Eq, Drop)]
pub enum Use {
    /// As its target.
    Target,
    /// As a capability of its content, by its index.
    Capability(u64),
    /// As what a promise is resolved to.
    Resolution,
}

/// Why the results of a question can't be named.
#[derive(Clone, Copy, Debug, PartialEq, Eq, Drop)]
pub enum Lost {
    /// It was never asked.
    NeverAsked,
    /// It was finished in that message.
    Finished(u64),
    /// It is over without a Finish.
    Over,
}

/// Why a question is not open.
#[derive(Clone, Copy, Debug, PartialEq, Eq, Drop)]
pub enum Over {
    /// It was never asked.
    NeverAsked,
    /// It is over since that message.
    Since(u64),
}

/// Why an export can't be resolved.
#[derive(Clone, Copy, Debug, PartialEq, Eq, Drop)]
pub enum Unresolved {
    /// It was resolved in that message.
    Resolved(u64),
    /// It was never given as a promise.
    NeverPromised,
    /// It is no promise.
    NoPromise,
}

/// What gives references back.
#[derive(Clone, Copy, Debug, PartialEq, Eq, Drop)]
pub enum GivenBack {
    /// A Release, or a Resolve that comes back.
    Itself,
    /// The flag of a Return or a Finish.
    Flag,
}

/// What of a message breaks the protocol. Messages are named by their numbers.
#[derive(Clone, Copy, Debug, PartialEq, Eq, Drop)]
pub enum Breach {
    /// It comes behind an Abort of its sender.
    BehindAbort(u64),
    /// The question is open since that message, and its Return came in the other.
    InUse(QuestionId, u64, Option<u64>),
    /// It names an export that was given back whole in that message, or was never given.
    NotHeld(Use, ExportId, Option<u64>),
    /// It names results that can't be named.
    NotAsked(Use, QuestionId, Lost),
    /// It gives back so many of an export of which fewer are there.
    TooMany(GivenBack, u64, ExportId, u64),
    /// It answers a question that is not open.
    AnswersNone(QuestionId, Over),
    /// It answers a question again, which that message answered.
    AnswersAgain(QuestionId, u64),
    /// `resultsSentElsewhere` answers that message, which is no tail call.
    NoTailCall(u64),
    /// It takes the results of a question that is no open tail call.
    TakesNone(QuestionId),
    /// It finishes a question that is not open.
    FinishesNone(QuestionId, Over),
    /// It finishes a question again, which that message finished.
    FinishesAgain(QuestionId, u64),
    /// It resolves what is no promise to be resolved.
    ResolvesNone(ExportId, Unresolved),
    /// The embargo is under way since that message.
    EmbargoInUse(EmbargoId, u64),
    /// The target is not known to lead back to the sender.
    LeadsElsewhere,
    /// The embargo is not under way.
    NoEmbargo(EmbargoId),
    /// It sends back what the other never sent.
    NeverSent(Kind),
}
