//! Worked runs and steps of the machine of `rpc_machine`, and wrong steps that it refuses. No code runs here: what each
//! function ensures is the example, or the law.
//!
//! `runs.rt` and `steps.rt` have the examples, `refused.rt` what the machine refuses. States, messages, effects and the
//! statement of an example stand in `specs/`, its proof in `proofs/` in a file of the same name.
#![tactic(auto)]

mod refused;
mod runs;
mod steps;

pub use refused::{
    calls_stop_at_wires, embargoes_hold, flags_are_exact, full_answers_fall, questions_stay_taken,
    resolves_count,
};
pub use runs::{
    back_and_forth, called_back, early_finish, given_again, given_back, given_twice, late_resolve,
    one_bootstrapped_call, over_release, promised_answer, relayed_back, resolved_across,
};
pub use steps::{of_checks, of_commands, of_level_zero, of_messages, of_shortening, untangled};
