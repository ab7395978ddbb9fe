//! What an adapter gives.
use rpc_codec::SentElsewhere;
use rpc_msg::{Message, Tree};

/// Messages that a vat is to hear, in their order.
#[derive(Drop)]
pub enum Heard {
    Nothing,
    One(Message),
    Two(Message, Message),
}

/// What comes of an envelope.
#[derive(Drop)]
pub struct Inbound {
    /// What the vat is to hear before anything else.
    pub heard: Heard,
    /// What is not understood, whole: it is to go back if the vat says that it is Unimplemented.
    pub unknown: Option<Tree>,
}

/// What is said to the peer.
#[derive(Drop)]
pub enum Said {
    Message(Message),
    /// A Return of a tail call, whose results are kept.
    SentElsewhere(SentElsewhere),
}

/// What comes of a message of the vat.
#[derive(Drop)]
pub struct Outbound {
    /// What is said to the peer in its place, if anything is.
    pub said: Option<Said>,
    /// What the vat is to hear before anything else.
    pub heard: Heard,
}
