//! What commands do first, if they are not refused. What settles a promise or an outcome is in `core_step_settles`.
//!
//! - `calls.rt`: `bootstrap`, `finish_call`, and a call (`call_kept`, by its reference).
//! - `refs.rt`: `host`, `clone_ref`, `field`, `drop_ref`. `advances.rt`: `advance`, a function for each of the machine's small
//!   relations, from the wire to which the head settles to the embargo.
//! - `promises.rt`: `promise`.
//!
//! Of a call:
//!
//! - `kept.rt` keeps its outcome here, `request.rt` makes what is called of the command, and `ways.rt` has one function for each
//!   way (`call_under`, `call_here`, `call_over`).
//! - `ended.rt` settles a call that ends as soon as it is made, and says the whole step behind it (`HasEnded` of `specs/AtOnce`).
//! - `straight_call.rt` is the shorter way of a call that passes no references, through a reference without an embargo that
//!   leads to an import: `straight` looks once whether a call is one, and not refused (`IsStraight` of `specs/Straight`),
//!   and `call_straight` sends it, with no lists and no copy of where it goes. If `straight` says no, nothing is promised: the
//!   call then takes the longer way, and is what the machine makes it.
//!
//! Each is one relation of the machine (`Acts`), and takes no memory: its caller made the slack and the lists. A call says
//! (`fits`) that it never fails if what it would wait for is there (`GoesSomewhere` of `specs/Ways`) and there is room for the
//! call, in the words of the check before it. That is said of the state from which the check read: an outcome that is kept and
//! a call that is counted change neither where nodes settle nor what room there is (`proofs/Rooms`).
#![tactic(auto)]

mod advances;
mod calls;
mod ended;
mod kept;
mod promises;
mod refs;
mod request;
mod straight_call;
mod ways;

pub use advances::advance;
pub use calls::{bootstrap, call_kept, finish_call};
pub use core_step_routes::{Lists, exception_of};
pub use ended::settle_ended;
pub use kept::keep_outcome;
pub use promises::promise;
pub use refs::{clone_ref, drop_ref, field, host};
pub use request::request_of;
pub use straight_call::{StraightCall, call_straight, straight};
pub use ways::{call_here, call_over, call_under};
