//! Laws of finite maps from numbers, for the proofs of the crates above: sums over the entries, maps with other
//! values under the same keys, and the map that a `BTreeMap` is. It has no code.
#![tactic(auto)]
