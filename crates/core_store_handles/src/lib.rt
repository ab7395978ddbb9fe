//! What a vat's application has by number: its references, its unfinished calls, its unanswered tasks and its unsettled
//! promises.
//!
//! References (`references.rt`) come one by one or one for each node of a list, lead to another node, turn back under
//! an embargo, leave it, are counted for a call, and go. Unfinished calls (`calls.rt`), tasks (`tasks.rt`) and promises
//! that are not settled (`promises.rt`) come and go. `end_call` notes the call's question or outcome if no place names
//! it; it requires that the call has no other (`HasItsOwnAlone` of `specs/Ends`), since it looks for none.
#![tactic(auto)]

mod calls;
mod promises;
mod references;
mod tasks;

pub use calls::{add_call, end_call, number_call};
pub use promises::{number_promise, settle_number};
pub use references::{
    add_ref, add_refs, count_made, forget_ref, lift_from, put_back_ref, set_head, turn_under,
};
pub use tasks::{add_task, end_task};
