//! The core of a vat: what it holds for its connection, and each of its steps as the machine of `rpc_machine` has it.
//!
//! - `vat.rt`: `Core` is a `Machine` of `core_steps`; contracts see the state of the machine that it holds
//!   (`state_of`). Its invariant, `IsStanding` of `specs/Standing`, is that it rests between two steps and that its
//!   state is one to which a vat comes (`IsReached` of `laws_steps`). So what is proved of all such states may be taken
//!   from laws: that calls have no outcome or question but their own, which `finish` requires. `proofs/Reaching` shows
//!   that each step leads on to such a state.
//! - The commands by name: `calls.rt`, `refs.rt`, `promises.rt`, `tasks.rt`.
//! - `commands.rt`: `command` takes a command of any kind and answers what the call of its name does. Each command has its own
//!   `obey_..` beside the call of its name.
//! - `queries.rt`: what can be asked of a core without a step, in the words of `Queries`; `counts.rt` the counts of
//!   exports and imports; `foresight.rt` what takes a vat down and can be told before it hears of it; `fallen.rt` whether a
//!   vat that went down met a limit.
//! - `holdings.rt`: what an application asks to know what it can let go: which of its objects are named, whether anybody has
//!   use for a task's results, where its references lead (`core_queries`).
//! - `refused.rt`: a command that is refused hands its arguments back in a `Refused`, which is an error with the refusal's
//!   text, so that an application may pass it on by `?`.
//! - `contents.rt`: the payload and references of a message that gives one capability or none (`contents`).
//!
//! A command is first checked (`core_step_checks`), in the machine's order, and then done whole (`core_steps`), which
//! leaves running out of memory as its only refusal. A call that goes to an import at once is checked and told apart by
//! one look (`straight`). `recycle` takes the memory of effects back, and is no step. `Effects` are no `Drop`: an
//! application takes them apart or gives them back.
#![tactic(auto)]

mod calls;
mod commands;
mod contents;
mod counts;
mod fallen;
mod foresight;
mod holdings;
mod promises;
mod queries;
mod refs;
mod refused;
mod tasks;
mod vat;

pub use commands::Answer;
pub use core_queries::{ImportKind, Place, TableSizes};
pub use refused::Refused;
pub use vat::Core;
