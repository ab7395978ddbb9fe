//! Tests of `link_driver` by its public calls. They stand apart from it: a crate is proved once more with its tests.
#![tactic(auto)]

#[cfg(test)]
mod tests;
