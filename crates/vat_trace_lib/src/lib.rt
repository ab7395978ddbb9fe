//! Plays scripts on two vats and prints what happens; checks, shows and upgrades traces: what the program `vat_trace` does
//! with a word, a reader and a writer.
//!
//! - `lines.rt` plays the lines of a script on two vats (`specs/Playing`: what each line does to the two vats and to the
//!   names), and `run.rt` makes the whole trace of a script (`specs/Traces`).
//! - `words.rt`: the program's words; `answers.rt`: what it answers to each; `fault.rt`: why it fails.
//! - `program.rt`: the program without its handles: `vat_trace` gives it arguments, files and streams.
//!
//! The word `pair` stands in the program `vat_trace`, which takes from here how a journal is printed.
#![tactic(auto)]

mod answers;
mod fault;
mod lines;
mod program;
mod run;
mod words;

pub use answers::{Printed, print_checked};
pub use fault::{Failure, ScriptFault};
pub use lines::play_lines;
pub use program::{play, status};
pub use run::{CheckedTrace, checked, trace_of_script};
pub use words::Word;
