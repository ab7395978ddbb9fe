//! Tests of `laws_merge`, `link_rings` and `link_workers`, at small sides of their own whose steps can be worked out by hand. One is
//! an adder (`adder.rt`), which sends the numbers that it is told to say, and adds and sends back each number that comes. The other
//! is a toy vat, which makes calls, is delivered them in order, and answers. The tests are apart from those crates, since a crate
//! with tests is proved once more.
#![tactic(auto)]

mod adder;
#[cfg(test)]
mod tests;

pub use adder::{Adder, Did, Note};
