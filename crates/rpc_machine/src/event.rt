use crate::command::Command;
use rpc_journal::rpc_msg::Vat;

/// What may happen to two vats.
#[derive(Drop)]
pub enum Event {
    /// An application commands its vat.
    Command(Vat, Command),
    /// A vat receives the oldest message that was sent to it.
    Deliver(Vat),
}
