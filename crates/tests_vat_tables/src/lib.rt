//! Tests of the tables and of the pool of waiting calls, by the public calls of `vat_tables`. They stand apart from it: a
//! crate is proved once more with its tests.
#![tactic(auto)]

#[cfg(test)]
mod tests;
