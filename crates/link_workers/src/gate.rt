use rpc_msg::{Stamp, Vat};

/// Is asked before and after each answer of a task, on the thread of the vat that answers it.
pub trait Gate: Sync {
    /// A vat is about to answer a task, whose call has that stamp. With `false` the task is not answered, and the run ends.
    fn before_answer(&self, vat: Vat, stamp: Stamp) -> bool;

    /// It has answered.
    fn after_answer(&self, vat: Vat, stamp: Stamp);
}

/// A gate that always passes.
#[derive(Clone, Copy, Drop)]
pub struct OpenGate;

impl Gate for OpenGate {
    fn before_answer(&self, _vat: Vat, _stamp: Stamp) -> bool {
        true
    }

    fn after_answer(&self, _vat: Vat, _stamp: Stamp) {}
}
