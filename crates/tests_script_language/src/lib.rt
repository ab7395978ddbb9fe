//! Tests of scripts, by the public calls of `script_language`. They stand apart from it: a crate is proved once more with its
//! tests.
#![tactic(auto)]

#[cfg(test)]
mod tests;
