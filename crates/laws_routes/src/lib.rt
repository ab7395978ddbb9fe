//! The map from two vats to the machine of routes: what two vats and their links are in that machine. The pieces of a
//! vat's step are moves of it, and so are whole steps, if what they take as known is so (docs/order.md, "Two vats in
//! that machine").
//!
//! Files of functions that run no code. Of pieces: `laws.rt` (references, calls, promises, embargoes, what goes),
//! `outcomes.rt`, `messages.rt`, `quiet.rt` (what ends and what is let go), `sayings.rt`. Of whole commands and
//! messages: `commands.rt` and `taken_messages.rt`. Of whole steps: `steps.rt`. Of what they take as known: `midway.rt`
//! and, of first acts, `first_acts.rt`.
#![tactic(auto)]

mod commands;
mod first_acts;
mod laws;
mod messages;
mod midway;
mod outcomes;
mod quiet;
mod sayings;
mod steps;
mod taken_messages;

pub use commands::{
    bootstraps_are_asked, each_call_is_made, lettings_go_are_no_move, promises_are_made,
};
pub use first_acts::{
    embargoes_are_named, embargoes_are_right, messages_may_be_taken, other_commands_keep_it,
    steps_may_be_done,
};
pub use laws::{
    calls_are_made, calls_are_routed, calls_come, embargoes_end, gone_is_no_move,
    known_outcomes_stop, new_refs_begin, outcomes_are_kept, promises_are_fixed, references_advance,
};
pub use messages::{
    descriptors_are_made, descriptors_are_taken, resolves_are_sent, returns_are_sent,
    silent_is_no_move,
};
pub use midway::{
    calls_may_go, collecting_keeps_it, commands_may_act, drains_keep_it, fixed_promises_keep_it,
    free_ids_may_be_used, more_may_be_said, resolves_keep_it, routed_calls_keep_it,
    settled_outcomes_keep_it, steps_begin_and_end_with_it, sweeps_keep_it, whole_steps_keep_it,
};
pub use outcomes::{
    applications_are_told, held_calls_are_routed, outcomes_become_known, outcomes_settle,
    promises_open, promises_settle,
};
pub use quiet::{answers_close, ends_are_no_move, exports_are_lowered};
pub use sayings::{
    advances_are_followed, descriptors_say_so, returns_say_so, sayings_stay, what_is_known_stays,
    what_is_said_becomes_known, what_is_said_stays,
};
pub use steps::{
    acts_are_moves, deliveries_are_in_order, steps_are_moves, steps_keep_order, takes_are_moves,
    vats_are_tied,
};
pub use taken_messages::{
    bootstraps_are_taken, calls_are_taken, disembargos_meet_wires, resolves_are_taken,
    returns_are_taken,
};
