//! Laws over every step of the machine of `rpc_machine`. No code runs here: what each function ensures is the law.
#![tactic(auto)]

mod laws;

pub use laws::{
    nodes_are_there, numbers_only_rise, numbers_used_once, room_is_exact, settled_stays,
};
