//! Where a call goes: it reaches an object, waits, is sent on, or ends.
//!
//! - `routes.rt` chooses by where the node settles.
//! - `deliveries.rt`: a task at an object. `waits.rt`: behind an open promise, or a field that is not known. `questions.rt`:
//!   out as a question, for a kept outcome or for a call of the application. `broken_nodes.rt`: it ends.
//! - `descriptors.rt`: what its capabilities are called in its message. `lists.rt`: the lists that it needs
//!   (`IsPrepared` of `specs/Prepared`).
//!
//! Each piece is a free function over the step. A function whose name ends in `_kept` takes no memory: its caller made
//! the slack, and the lists. `route_kept` finds the room that the machine asks for where a call goes. It asks for
//! numbers at an object alone, and at a broken node for a text into which the reason fits (`fits`, with `IsOpenThere`
//! of `specs/Fitting`). The calls that are taken out count among those that wait, so there may be none. `route` makes
//! the room itself, and of the lists what the call needs where it goes: at an object one list, at a wire two, and the
//! text of a reason at a broken node alone. `route_taken` and `route_held` route all calls that were taken out of a
//! list, until none is left: their loops keep that what routes the calls that are left routes all.
#![tactic(auto)]

mod broken_nodes;
mod deliveries;
mod descriptors;
mod lists;
mod questions;
mod routes;
mod waits;

pub use broken_nodes::{end_broken_kept, exception_of};
pub use deliveries::deliver_kept;
pub use descriptors::{describe, describe_all_kept};
pub use lists::Lists;
pub use questions::{call_direct_kept, relay_kept};
pub use routes::{route, route_held, route_kept, route_taken};
pub use waits::{wait_for_field, wait_for_promise};
