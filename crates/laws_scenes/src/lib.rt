//! In each scene of two vats of level 1 calls keep their order. No code runs here: what each function ensures is the law.
//!
//! `laws.rt` has the end of the argument of docs/order.md, of scenes and of runs; `between.rt` what is so between steps.
#![tactic(auto)]

mod between;
mod laws;

pub use between::{
    exports_meet, loops_meet, oldest_are_last, oldest_are_met, oldest_let_go_well, questions_meet,
    vats_meet,
};
pub use laws::{
    calls_arrive_in_full, calls_keep_their_order, canceled_were_given_up, disembargos_turn_back,
    nothing_is_refused, own_calls_arrive_in_full, sound_by_meanings, vats_are_between_steps,
};
