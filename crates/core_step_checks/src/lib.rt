//! The checks of commands and of received messages: what a command is refused with, and which fault a message is. Nothing
//! here changes anything, or needs memory.
//!
//! - `calls.rt`, `refs.rt`, `promises.rt`, `tasks.rt`: a `check_..` for each command: `Ok` if the machine refuses nothing, else
//!   its refusal. `refusals.rt`: the single checks of which they are made. `ref_heads.rt`: where the references of a command lead. `exports.rt`: whether there is room for what a call
//!   passes; `times.rt` counts it by node.
//! - `faults.rt`: a function for each kind of message; `messages.rt` those over any message.
//! - `descriptors.rt`: one descriptor, and one id that is given back. `known.rt`: what is known of a wire.
//! - `laws.rt`: that the parts of a check together are the machine's.
//!
//! What a peer may make long is not looked at twice. The machine looks at each descriptor with those before it in mind, and
//! counts each id of a flag among all of them; both would be quadratic in code that takes no memory. So a message is
//! checked in four parts (`specs/Parts`), and `laws.rt` proves that the first fault of the parts is the machine's:
//!
//! - `fault_before`: what comes before the descriptors; the whole fault of a Bootstrap, Resolve, Release or Disembargo:
//!   this crate.
//! - the descriptors: `fault_of_descriptor`, at each one once those before it were taken (`descriptors_in_turn`).
//! - `fault_behind`: a call that would wait although no more may: this crate; the same before and after the descriptors are
//!   taken.
//! - the ids of a flag: `fault_of_one`, at each one once those before it were given back (`flags_in_turn`).
//!
//! A fault takes the vat down, so nothing has to be undone if the walk over descriptors or ids ends early.
//!
//! `check_call_whole` looks its reference up once, and then at all that a call is refused with except for the room in the
//! exports, which comes last (`calls_are_refused`; `check_call_exports` of `exports.rt` looks at that). If the table and
//! all counts are far from their limits, each reference that goes out is looked up once. Else they are counted by node; only
//! if there is no memory for that is each compared with those before it. If the calls that wait are counted, none may
//! be taken out to be routed.
#![tactic(auto)]

mod calls;
mod descriptors;
mod exports;
mod faults;
mod known;
mod laws;
mod messages;
mod promises;
mod ref_heads;
mod refs;
mod refusals;
mod tasks;
mod times;

pub use calls::{check_bootstrap, check_call_whole, check_finish};
pub use descriptors::{fault_of_descriptor, fault_of_one, fault_of_only, same_kind};
pub use exports::check_call_exports;
pub use faults::{
    fault_before_call, fault_before_finish, fault_before_return, fault_behind_call,
    fault_of_bootstrap, fault_of_disembargo, fault_of_release, fault_of_resolve, target_node,
};
pub use known::{Known, known_of_wire, leads_back, wire_target};
pub use laws::{calls_are_refused, descriptors_in_turn, faults_in_parts, flags_in_turn};
pub use messages::{fault_before, fault_before_echoed, fault_behind, is_foreign};
pub use promises::{check_promise, check_reject, check_resolve};
pub use ref_heads::{head_of, heads};
pub use refs::{check_advance, check_clone_ref, check_drop_ref, check_field, check_host};
pub use tasks::{check_answer, check_fail};
