//! Laws of runs of two vats, and what is promised of every run from what is left to prove of them. No code runs here: what
//! each function ensures is the law.
//!
//! `laws.rt` and `scenes.rt` have the laws of runs and scenes, `sessions.rt` those of sessions of ids, `counts.rt` those of counts. No step
//! of a core is unfolded here: what references count is a relation for the walk of `laws_steps`.
#![tactic(auto)]

mod counts;
mod laws;
mod scenes;
mod sessions;

pub use counts::{
    counts_agree, counts_agree_in_runs, counts_agree_in_scenes, entries_count, imports_are_paid,
    messages_are_met,
};
pub use laws::{
    calls_are_counted, calls_are_numbered, every_run_is_shown, meanings_last, quiet_when_down,
};
pub use scenes::{logs_are_runs, sound_by_scenes};
pub use sessions::{
    acts_keep_sessions, answers_are_there_when_named, export_session_says, export_sessions_hold,
    question_sessions_hold, sessions_stand,
};
