//! Tests of `rpc_codec`, `rpc_codec_fits` and `rpc_outgoing` by their public calls. Frames of other makers are in
//! `scenes_bytes`.
#![tactic(auto)]

#[cfg(test)]
mod tests;
