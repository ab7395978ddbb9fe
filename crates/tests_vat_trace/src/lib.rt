//! Tests of what the programs `vat_trace` and `trace_chart` print and say, by the public calls of `vat_trace_lib` and
//! `trace_chart_lib`. They stand apart from these: a crate is proved once more with its tests.
#![tactic(auto)]

#[cfg(test)]
mod tests;
