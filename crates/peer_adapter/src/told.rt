//! What an adapter gives.
use peer_tail_calls::{Heard, Said};
use rpc_msg::{ExportId, Items, Tree};

/// What the peer is told: that one of each of these exports is given back, and then a message, if there is any.
#[derive(Drop)]
pub struct Told {
    pub given_back: Items<ExportId>,
    pub said: Option<Said>,
}

/// What comes of an envelope beside what the vat hears.
#[derive(Drop)]
pub enum Aside {
    /// The peer is told that at once.
    Told(Told),
    /// What is not understood, whole: it is to go back if the vat says that it is Unimplemented.
    Unknown(Tree),
}

/// What comes of an envelope.
#[derive(Drop)]
pub struct Inbound {
    pub aside: Aside,
    /// What the vat is to hear before anything else.
    pub heard: Heard,
}

/// What comes of a message of the vat.
#[derive(Drop)]
pub struct Outbound {
    /// What the peer is told in its place.
    pub told: Told,
    /// What the vat is to hear before anything else.
    pub heard: Heard,
}
