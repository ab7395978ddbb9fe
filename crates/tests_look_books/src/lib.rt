//! Tests of the books of a conversation, by the public calls of `look_books`.
#![tactic(auto)]

#[cfg(test)]
mod tests;
