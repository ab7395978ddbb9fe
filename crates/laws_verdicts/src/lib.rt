//! The check of traces (`rpc_check`) finds every journal of two vats good. No code runs here: what each function ensures is
//! the law.
#![tactic(auto)]

mod laws;

pub use laws::{
    each_got_was_sent, each_is_in_order, every_verdict_is_good, journals_tell_runs,
    none_acts_after_down, noted_counts_agree,
};
