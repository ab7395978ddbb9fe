//! What comes of a message.
use rpc_codec::Envelope;
use rpc_msg::{ExportId, Items};

/// A message as it is handed on.
#[derive(Drop)]
pub struct Named {
    /// The message; `none` stands in it for each name of a broken promise.
    pub came: Envelope,
    /// What is to be given back to the peer at once, by a Release of one for each time that it stands here.
    pub given_back: Items<ExportId>,
}
