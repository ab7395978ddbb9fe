//! What an application is told.

use rpc_journal::{Delivery, Ended};
use rpc_msg::{ExportId, ObjectId, QuestionId, RefId, TaskId, Text};

/// A place that the peer has.
#[derive(Clone, Copy, Debug, PartialEq, Eq, Drop)]
pub enum PeerPlace {
    /// What the peer exports by that id.
    Import(ExportId),
    /// The results of that question to the peer.
    Question(QuestionId),
}

/// What an application is told of its vat.
#[derive(Drop)]
pub enum Event {
    /// A call is to be served.
    Served(Delivery),
    /// An own call has ended.
    Ended(Ended),
    /// What stands at a place of the peer is known now: a Resolve settled the promise that it exports, or a Return came for the
    /// question. A place of this vat names it. A reference that leads there may lead on: `advance` it.
    Resolved(PeerPlace),
    /// The embargo of a reference is over: its calls wait no more.
    Lifted(RefId),
    /// Nobody has use for the results of the task any more: the peer's Finish came, no call waits for them, and no place names a field
    /// of them. The task is still to be answered or failed, since a Return is owed; what it is answered with goes nowhere.
    Cancelled(TaskId),
    /// No place of the vat names the object any more, which the application hosted. No call is delivered to it until the
    /// application hosts it again.
    Released(ObjectId),
    /// The vat went down, with that number. If it was by an Abort of the peer, its reason comes with it; it is empty
    /// too if there was no memory for that. Nothing is told after it.
    Down(u16, Text),
}

/// Whether the application was told that the vat is down, and the reason that is to be told with it.
#[derive(Drop)]
pub(crate) struct DownNotice {
    pub(crate) told: bool,
    pub(crate) reason: Text,
}
