//! What becomes of an envelope.
use rpc_codec::Envelope;
use rpc_msg::AnswerId;

/// What comes of an envelope of the peer.
#[derive(Drop)]
pub enum Admission {
    /// The vat is to hear it, through its adapter.
    Admitted(Envelope),
    /// The peer is to be told that its question is refused: see [`overloaded`](crate::overloaded).
    Refused(AnswerId),
    /// The peer is to be told that the results of its tail call are kept (`resultsSentElsewhere`), and to take back what the
    /// call gave (a true `releaseParamCaps`).
    RefusedTail(AnswerId),
    /// Nobody is to hear of it: the Finish of a refused question.
    Nothing,
}
