//! What a peer gets for its questions, by a vat and the adapter between them: one Return each. No code runs here: what the functions
//! ensure are the laws.
#![tactic(auto)]

mod laws;

pub use laws::{adapter_returns, each_gets_one_return, steps_return};
