use crate::node::Node;
use rpc_journal::rpc_msg::{CallId, Exception, Items, Path, Payload, QuestionId, Stamp};

/// What is called, with the nodes of its capabilities.
#[derive(Drop)]
pub struct Request {
    pub stamp: Stamp,
    pub interface: u64,
    pub method: u16,
    pub payload: Payload,
    pub caps: Items<Node>,
}

/// A call whose outcome is kept at this vat, under that key.
#[derive(Drop)]
pub struct WaitingCall {
    pub request: Request,
    pub outcome: u64,
}

/// A call that waits for what stands at a path of an outcome.
#[derive(Drop)]
pub struct HeldCall {
    pub path: Path,
    pub call: WaitingCall,
}

/// How a call ended, with the nodes of its capabilities.
#[derive(Drop)]
pub enum Value {
    Results(Payload, Items<Node>),
    Exception(Exception),
}

/// Who is told of an outcome.
#[derive(Clone, Copy, Debug, PartialEq, Eq, Drop)]
pub enum Caller {
    Application(CallId),
    Peer(QuestionId),
}

/// An outcome that is kept at this vat.
#[derive(Drop)]
pub struct KeptOutcome {
    pub caller: Caller,
    /// What it is, once it is known.
    pub value: Option<Value>,
    /// The calls that wait for it.
    pub waiting: Items<HeldCall>,
}

/// Where the outcome of an unfinished call of the application comes from.
#[derive(Clone, Copy, Debug, PartialEq, Eq, Drop)]
pub enum OwnCall {
    /// From the Return of a question that was asked for it.
    Direct(QuestionId),
    /// From an outcome that is kept at this vat.
    Kept(u64),
}

/// A promise of this vat's application: the calls that wait for it, or what it was settled to.
#[derive(Drop)]
pub enum Promise {
    Open(Items<WaitingCall>),
    Fixed(Node),
}
