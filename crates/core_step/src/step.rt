use crate::arisen::Arisen;
use core_outbox::Outbox;
use core_store::Store;

/// A step of a vat in progress. Its fields are open to the crates of the core; what holds of them together is `IsReady`
/// of the definitions, which each function of these crates requires and keeps, until Finishes and Releases are made.
#[derive(Drop)]
pub struct Step {
    pub store: Store,
    /// What the step says.
    pub outbox: Outbox,
    /// The outcomes that arose and are to be settled.
    pub arisen: Arisen,
}
