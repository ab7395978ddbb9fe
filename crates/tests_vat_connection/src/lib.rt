//! Tests of `vat_connection` and `vat`: bytes in pieces of any length, streams that end or are at fault, and calls that are open when
//! a vat goes down. Two connections exchange bytes, and two hosts messages, of which one is refused memory.
#![tactic(auto)]

#[cfg(test)]
mod tests;
