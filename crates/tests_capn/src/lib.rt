//! Tests of the encoding, of values and of the journal's entries, by the public calls of `capn_wire`, `capn_stream`, `rpc_msg` and
//! `rpc_journal`.
#![tactic(auto)]

#[cfg(test)]
mod tests;
