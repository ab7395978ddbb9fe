//! All that is promised of scenes, put together: what is received means what it should, so what a vat holds does. No code
//! runs here: what each function ensures is the law.
//!
//! `laws.rt` has the laws of scenes and runs, `worlds.rt` those of worlds with their journal.
//!
//! How the laws are proved stands in docs/laws.md ("All of it in scenes").
#![tactic(auto)]

mod laws;
mod worlds;

pub use laws::{
    every_run_is_sound, first_acts_send, meanings_are_kept, oldest_are_heard, roots_are_hosted,
    scenes_are_led, scenes_are_meant, scenes_mean, steps_keep_places, wires_are_kept,
};
pub use worlds::{
    bootstraps_stay, worlds_are_sound, worlds_keep_promises, wrong_journals_are_refused,
};
