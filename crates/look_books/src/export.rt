//! What is kept of an export.
use crate::act::Asked;
use rpc_msg::ExportId;

/// In what a capability was given.
#[derive(Clone, Copy, Debug, PartialEq, Eq, Drop)]
pub enum Origin {
    /// In the parameters of a question.
    Params(Asked),
    /// In the results of one; of none, where its Return answers none.
    Results(Option<Asked>),
    /// As what a promise was resolved to.
    Resolution(ExportId),
}

/// Where a capability was given.
#[derive(Clone, Copy, Debug, PartialEq, Eq, Drop)]
pub struct Given {
    /// The number of the message.
    pub number: u64,
    /// Its index there.
    pub index: u64,
    pub origin: Origin,
}

/// An export that the other end holds.
#[derive(Clone, Copy, Debug, PartialEq, Eq, Drop)]
pub struct Export {
    /// Whether it was given first as a promise.
    pub promise: bool,
    /// How often it was given, less how often it was given back.
    pub count: u64,
    /// Where it was given first.
    pub given: Given,
    /// How often it was given since.
    pub times: u64,
    /// The message that gave it last.
    pub last: u64,
    /// The message that resolved it.
    pub resolved: Option<u64>,
}
