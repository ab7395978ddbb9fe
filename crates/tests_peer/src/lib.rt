//! Tests of `peer_overload`, `peer_kinds`, `peer_broken`, `peer_tail_calls` and `peer_finishes` by their public calls: frames as a
//! peer sends them, and the vat's messages.
#![tactic(auto)]

#[cfg(test)]
mod tests;
