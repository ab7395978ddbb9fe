use crate::calls::WaitingCall;
use crate::node::Node;
use rpc_journal::rpc_msg::{
    CallId, Descriptor, EmbargoId, Exception, ExportId, Items, Payload, RefId,
};

/// What a question was asked for.
#[derive(Clone, Copy, Debug, PartialEq, Eq, Drop)]
pub enum Role {
    /// For a call of the application, or a Bootstrap.
    Direct(CallId),
    /// For a kept outcome, of a call that goes through this vat.
    Relay(u64),
}

/// What a Return said, with the node of each capability beside its descriptor.
#[derive(Drop)]
pub enum Returned {
    Results(Payload, Items<(Descriptor, Node)>),
    Exception(Exception),
}

/// Whether the Finish of a question is still to be sent.
#[derive(Clone, Copy, Debug, PartialEq, Eq, Drop)]
pub enum Finishing {
    Owed,
    Sent,
    /// None is sent for a question that came back Unimplemented.
    Waived,
}

/// What this vat asked.
#[derive(Drop)]
pub struct Question {
    pub role: Role,
    /// This vat's export ids that the sender descriptors of its Call name.
    pub given: Items<ExportId>,
    /// What its Return said, once that came.
    pub returned: Option<Returned>,
    pub finish: Finishing,
}

/// What the peer asked.
#[derive(Drop)]
pub struct AnswerEntry {
    pub outcome: u64,
    /// The peer's export ids that the sender descriptors of its Call name.
    pub taken: Items<ExportId>,
    /// Once its Return was sent: this vat's export ids that the sender descriptors of that Return name.
    pub returned: Option<Items<ExportId>>,
    /// Whether its Finish came.
    pub finished: bool,
}

/// As what an export was given: as an object, or as a promise.
#[derive(Clone, Copy, Debug, PartialEq, Eq, Drop)]
pub enum SenderKind {
    Hosted,
    Promise,
}

/// What a Resolve said.
#[derive(Drop)]
pub enum Resolution {
    To(Descriptor, Node),
    Exception(Exception),
}

/// An export of the peer.
#[derive(Drop)]
pub struct Import {
    pub kind: SenderKind,
    /// How often it was received.
    pub count: u32,
    /// What its Resolve said, once that came.
    pub resolution: Option<Resolution>,
}

/// A node that was given to the peer.
#[derive(Clone, Copy, Debug, PartialEq, Eq, Drop)]
pub struct Export {
    pub node: Node,
    /// How often it was sent, and not taken back.
    pub count: u32,
}

/// A reference of the application.
#[derive(Drop)]
pub struct Reference {
    pub head: Node,
    /// The embargo in which its calls wait.
    pub embargo: Option<EmbargoId>,
    /// How many calls were made through it.
    pub made: u64,
}

/// Calls of a reference that wait until the calls which it made before have arrived.
#[derive(Drop)]
pub struct Embargo {
    pub reference: RefId,
    /// Where they go then.
    pub node: Node,
    pub waiting: Items<WaitingCall>,
}
