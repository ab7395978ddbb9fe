//! What comes of an envelope.
use rpc_codec::Envelope;
use rpc_msg::ExportId;

/// What comes of an envelope.
#[derive(Drop)]
pub enum Kinds {
    /// The vat is to hear it, with each name in the kind of the first one.
    Heard(Envelope),
    /// The vat is not to hear it: a Resolve of what was named as an object. One of the export in it, if there is any, is to be
    /// given back by a Release.
    SetAside(Option<ExportId>),
}
