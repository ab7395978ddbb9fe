//! Whole steps: each command and each received message from its first act to what it says, and the vat that goes down. What
//! commands took is put back if no memory is found for what follows.
//!
//! - `machine.rt`: `Machine` is a vat between its steps: the step, the memory of its thought, and a spare outbox that has
//!   the memory of an Abort, since of a step whose end was refused memory nothing is known. `IsResting` of `specs/Whole` is
//!   what holds between steps; nothing but soundness is asked of a vat that is down.
//! - `settlement.rt`: `settle_step` comes after the first act of a step: `drain` of `core_step_settles`, and then which questions
//!   are over. Its `Err` says no more than that the step is to be dropped. The outermost function then ends the step by
//!   `end_settled`, so that what the step says is handed out once and not copied from one result into the next.
//! - `fall.rt` takes the vat down, whatever became of its step: what the vat is named by is read before the step begins.
//! - `promises.rt`, `tasks.rt`: the commands that settle a promise or a task. They are never refused for memory, and take the
//!   vat down if there is no room.
//! - `calls.rt`: `finish`. `refs.rt`: the commands of references. `finish`, `drop_ref` and `advance` let something go. They call
//!   `sweep` or `find_over` themselves, whose `Err` leaves the step as it was, and put back what they took if there is no memory
//!   for the thought (`undo.rt`). `host`, `clone_ref` and `field` add a reference. They begin quietly (`quiet_steps.rt`: nothing
//!   is loose and nothing noted), so nothing can go at their end, and they say nothing.
//! - `messages.rt`: `receive`, which requires nothing but a vat between its steps, for a received message brings its
//!   checks along. An Abort takes the vat down before any memory is asked for. The fault of another message, or lack of
//!   room, is told by one Abort.
//!
//! - Commands that make something for which the vat waits: `bootstrap` and `call` (`calls.rt`), `promise`
//!   (`promises.rt`). `straight_call.rt`: the step of a call that goes to an import at once (`straight` of
//!   `core_step_commands`), of which no outcome arises. They take what memory they need before they begin, and begin
//!   quietly: what they add is not loose (`proofs/Opened`), so `sweep` finds nothing to think about and can't be
//!   refused memory, and nothing has to be put back. A call that goes to a broken node ends as soon as it is made. No
//!   other has an outcome that arises (`proofs/Breaking`). That of this one is known by `settle_ended` without memory
//!   and stays, since its call is not finished (`proofs/Ended`). `call` requires a vat in a state to which vats come
//!   (`IsReached`): then its reference leads to what is there (`proofs/Going`), and with the room that was checked
//!   (`proofs/Allowed`) its first act always succeeds.
//!
//! What each gives and says is read off its result by `Tries` of `specs/Whole`. All commands require the checks of
//! `core_step_checks` passed.
#![tactic(auto)]

mod calls;
mod fall;
mod machine;
mod messages;
mod promises;
mod quiet_steps;
mod refs;
mod settlement;
mod straight_call;
mod tasks;
mod undo;

pub use calls::{bootstrap, call, finish, shorten_heads};
pub use core_step::{Arisen, Step};
pub use core_step_commands::{StraightCall, straight};
pub use core_step_sweeps::{Thought, sweep};
pub use fall::{fall_as, fall_silently_as, shut};
pub use machine::{Machine, Named};
pub use messages::receive;
pub use promises::{promise, reject, resolve};
pub use quiet_steps::{begin_quietly, end_silently};
pub use refs::{advance, clone_ref, drop_ref, field, host};
pub use settlement::settle_step;
pub use straight_call::call_straight;
pub use tasks::{answer, fail};
pub use undo::lead_back;
