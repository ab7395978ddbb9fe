//! Draws a conversation of any two vats as a sequence diagram, in SVG (`docs/looking.md`, "A picture"): what the program
//! `look_chart` does with a log and a writer.
//!
//! - `chart.rt` gathers what is drawn: a row for each message, breach and pause. `words.rt` has its labels, `step.rt` what a
//!   message does to a question or an embargo, and `bars.rt` the bars of these.
//! - `picture.rt` draws, by the parts of `chart_parts`; `titles.rt` are its title and its legend.
//! - `options.rt`: the program's options; `program.rt`: the program without its handles.
#![tactic(auto)]

mod bars;
mod chart;
mod options;
mod picture;
mod program;
mod step;
mod titles;
mod words;

pub use options::{Options, Request};
pub use program::{draw_log, tell, write_help};
