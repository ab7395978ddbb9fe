//! How one vat of a pair is worked on a thread: the lines of its script, and then turns that answer each open task. The end
//! that a worker is given may be of any kind; it gives that same end back.
//!
//! - `worker.rt`: one end is worked. `both.rt`: two ends are worked, on two threads. `worker_end.rt`: how the work of one ended.
//! - `job.rt`: what a worker is to do. `pair_end.rt`: an end, as its worker uses it. `gate.rt`: who is asked before a task is answered.
//!   `signals.rt`: what two workers tell each other.
#![tactic(auto)]

mod both;
mod gate;
mod job;
mod pair_end;
mod signals;
mod worker;
mod worker_end;

pub use both::work_both;
pub use gate::{Gate, OpenGate};
pub use job::Job;
pub use pair_end::PairEnd;
pub use signals::Signals;
pub use worker::work;
pub use worker_end::WorkerEnd;
