//! Tests of what captured bytes of a conversation are, by the public calls of `look_pieces`.
#![tactic(auto)]

#[cfg(test)]
mod tests;
