//! What references stand for, at each moment of two vats: that what is called, delivered and ended is what was made.
//!
//! How the laws are proved stands in docs/laws.md ("What is called, given and ended").
#![tactic(auto)]

mod laws;

pub use laws::{
    acts_keep_meanings, acts_lose_no_call, bootstraps_are_heard, bootstraps_are_left,
    bootstraps_end_with_roots, broken_calls_are_left, calls_are_as_made, calls_are_at_one_place,
    calls_are_heard, calls_end_as_answered, commands_are_written, commands_keep_meanings,
    commands_keep_scenes_meanings, cores_are_fit, descriptors_are_read, each_act_keeps_meanings,
    effects_are_meanings, ends_are_first, ends_of_calls_are_left, ends_were_asked,
    first_acts_follow, first_acts_of_commands_mean, first_acts_of_messages_mean,
    given_references_are_new, links_are_left, links_are_meanings, meanings_are_left,
    messages_are_heard, messages_keep_meanings, no_call_is_lost, node_meanings_last,
    openings_keep_meanings, outcomes_are_of_calls, own_numbers_were_asked, payloads_name_their_own,
    promises_are_settled_once, tasks_are_answered_once,
};
