//! Draws a trace as a sequence diagram, in SVG (`docs/trace.md`, "A picture of a trace"): what the program `trace_chart`
//! does with a file, a reader and a writer.
//!
//! - `chart.rt`: the follower that gathers what is drawn of a trace: rows with their notes, arrows. `bars.rt` keeps the
//!   embargoes and the calls that wait, `durations.rt` which of them last and by what they end, and `over.rt` says what an entry
//!   ends. `followed.rt` keeps the names of the calls through the reference that stands out, and `questions.rt` what each
//!   question is of. `entries.rt` says what of an entry the others want to know.
//! - `labels.rt` says an entry in words and `messages.rt` a message (`reasons.rt` refusals and faults), and `picture.rt` draws,
//!   by the parts of `chart_parts`.
//! - `options.rt`: the program's options; `fault.rt`: why it fails; `program.rt`: the program without its handles:
//!   `trace_chart` gives it arguments, files and streams.
#![tactic(auto)]

mod bars;
mod chart;
mod durations;
mod entries;
mod fault;
mod followed;
mod labels;
mod messages;
mod options;
mod over;
mod picture;
mod program;
mod questions;
mod reasons;

pub use fault::Failure;
pub use options::Options;
pub use program::{draw_trace, status, write_help};
