//! Tests of what a captured conversation says, by the public calls of `rpc_dump_lib`. They stand apart from it: a crate is
//! proved once more with its tests.
#![tactic(auto)]

#[cfg(test)]
mod tests;
