//! Two vats, the messages on their way between them, and the journal of what happens.
//!
//! Its events are those of the machine (`rpc_machine::Event`). What contracts see of a world is the machine's world, the
//! journal, and which vats a shut took down (`specs/World.Seen`); the type's invariant says that a run of two new vats
//! leads there (`IsReached`).
//!
//! - `side.rt`: a vat with its inbox and the memory of the journal's copy of its Abort; `link.rt`: a list that tells contracts
//!   its room.
//! - `log.rt`: the core's step goes into the journal (`core_telling`) and its messages on to the link, whole, or as going down
//!   in the room that is kept.
//! - `step.rt`: one vat's step, by a command or a message (`specs/Stages`). A call and the Finish of a call (`calls.rt`) and the
//!   results of a task (`tasks.rt`) go to the core's calls of these names, other commands to `Core::command`; `answer.rt`: what an event
//!   answers; `world.rt`: the same for either vat, runs, what can be asked, and the memory of effects that comes back.
#![tactic(auto)]

mod answer;
mod calls;
mod link;
mod log;
mod side;
mod step;
mod tasks;
mod world;

pub use answer::StepAnswer;
pub use core_telling::Answer;
pub use rpc_journal::JournalEntry;
pub use rpc_machine::Event as WorldEvent;
pub use world::{World, vat_of};
