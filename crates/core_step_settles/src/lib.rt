//! What follows when an outcome becomes known or a promise is fixed: no capability leads to itself, the caller is told, the
//! calls that waited are routed, and the exports get their Resolves.
//!
//! - `cycles.rt` fits the value of an outcome before it is kept (`fit`). Its capabilities are gone through from the
//!   last to the first, in their own list. From each a walk by links tells whether it leads back to its own place, and
//!   an open promise takes the place of one that does. The machine's word for that speaks of walks of any length
//!   (`TurnsBack`). A walk by links is made up to a field of the outcome, from which it comes to the outcome's
//!   capabilities exactly as from where it began (`Walked` of `specs/Ends`). From there what is kept of that field's
//!   capability is asked.
//! - `ends.rt` keeps where the walk from each capability came to (`Ends`). Since it came to one before it, and is shortened
//!   each time, no walk from field to field is made again and again.
//! - `ended_calls.rt` tells the application how a call ended, `answers.rt` the peer: what the Return says, then all goes that
//!   no place names, then the flag.
//! - `outcomes.rt` puts the pieces together (`settle_outcome`), each a function whose clause is the machine's word for it.
//!   The Return's collecting may let outcomes go, but leaves those that stay as they were (`Leaves` of `proofs/Collected`);
//!   that the outcome which is told stays is asked when its waiting calls are taken out, at no cost. The value is copied
//!   once: the outcome keeps one, and the caller is told the other.
//! - `drains.rt` settles those that arose, until none is left; each time one fewer is not known (`proofs/Fewer`).
//! - `export_resolves.rt` sends the Resolves of a promise's exports, or of those of an outcome's fields, by rising id; if no
//!   place names the promise or the outcome the table of exports is not looked at.
//! - `fixed_promises.rt` fixes a promise (`fix_promise`).
//! - `promises.rt` is what the commands `resolve` and `reject` do first, `tasks.rt` what `answer` and `fail` do.
#![tactic(auto)]

mod answers;
mod cycles;
mod drains;
mod ended_calls;
mod ends;
mod export_resolves;
mod fixed_promises;
mod outcomes;
mod promises;
mod tasks;

pub use answers::returns;
pub use cycles::fit;
pub use drains::drain;
pub use ended_calls::tell_call;
pub use export_resolves::{resolve_fields, resolve_promises};
pub use fixed_promises::fix_promise;
pub use outcomes::{settle_outcome, tells};
pub use promises::{reject, resolve};
pub use tasks::{answer, fail};
