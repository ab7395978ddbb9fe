//! Exports: that they keep their node and kind, that what is named of them stands, that each which settles is told once, and
//! that between two vats no message clashes with what is kept of an import. No code runs here: what each function ensures
//! is the law.
//!
//! `laws.rt` has exports and what is named of them, `resolves.rt` Resolves, `answers.rt` answers, embargoes and payloads,
//! `refused.rt` what a message is checked for: which check is excluded by which law stands in docs/laws.md ("What a message
//! is checked for").
#![tactic(auto)]

mod answers;
mod laws;
mod refused;
mod resolves;

pub use answers::{
    answers_return_once_known, disembargos_are_met, embargoes_are_about, named_answers_are_there,
    payloads_fit,
};
pub use laws::{
    exports_are_of_one_kind, exports_keep_nodes, imports_answer, mentions_stand,
    named_exports_are_there,
};
pub use refused::{
    few_checks_are_left, most_messages_are_taken, no_message_is_refused, sound_by_the_rest,
};
pub use resolves::{exports_resolve_once, exports_stand, settled_exports_are_told};
