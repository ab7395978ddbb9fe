use core_outbox::Outbox;
use core_step::Step;
use core_step_sweeps::Thought;
use rpc_machine::Level;
use rpc_msg::{ObjectId, Vat};
use std::alloc::Global;

/// A vat between its steps: what it holds, and the memory that is kept for its steps. Its fields are open to the crates
/// of the core; what holds of them together is `IsResting` of the definitions, which each whole command requires and
/// keeps.
#[derive(Drop)]
pub struct Machine {
    pub step: Step,
    pub thought: Thought,
    /// It has the memory of the one Abort with which the vat goes down, whatever became of the step.
    pub spare: Outbox,
    /// It went down for lack of room, and met a limit then: a table was full, or no more calls could wait.
    pub met_limit: bool,
    pub alloc: Global,
}

/// What stays of a vat that goes down.
#[derive(Clone, Copy, Drop)]
pub struct Named {
    pub vat: Vat,
    pub level: Level,
    pub bootstrap: Option<ObjectId>,
}
