//! Tests of `look_names`: names, paths and contents by a schema that `capnp compile` wrote.
#![tactic(auto)]

#[cfg(test)]
mod tests;
