//! The four tables of a vat's connection: its questions, answers, imports and exports.
//!
//! One file for each table. In `questions.rt` a question is asked for an outcome, or for a call, which then has its
//! entry; its Return is kept; its Finish is waived or sent; it goes. In `answers.rt` one opens, its Return was sent,
//! its Finish came. In `imports.rt` one is received, given back, resolved, taken out. In `exports.rt` a node is named,
//! counts fall, a flag is obeyed, and the exports of a promise or an outcome are listed. None takes memory but the
//! lists of exports. What may have to go is noted: a relay's question whose Return came, an import that is new, and the
//! outcome of an answer that goes. `names.rt` names what an entry names. Of its proofs `Beside` is the common part:
//! what holds of a store stays so if these tables, the unfinished calls, the names and the notes change; `Asking`,
//! `Answering`, `Importing` and `Exporting` have the changes of one table each.
#![tactic(auto)]

mod answers;
mod exports;
mod imports;
mod names;
mod questions;

pub use answers::{finish_answer, open_answer, set_answer_returned};
pub use exports::{exports_of_field, exports_of_promise, lower, name_export, obey};
pub use imports::{give_one, receive, set_resolution, take_import};
pub use questions::{
    ask_direct, ask_relay, close, drop_question, forget_question, set_returned, waive,
};
