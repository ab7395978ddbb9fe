//! Laws over nodes, embargoes, outcomes, questions and calls: what holds in every state to which a vat comes, and at every
//! moment of its steps. No code runs here: what each function ensures is the law.
//!
//! `circles_never_stop` says that a premise of `nodes_settle` is needed.
#![tactic(auto)]

mod laws;

pub use laws::{
    calls_have_their_own, circles_never_stop, embargoes_pair, nodes_settle, outcomes_have_sources,
    questions_end,
};
