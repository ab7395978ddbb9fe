//! What is said of the messages of a conversation, as lines of text (docs/looking.md).
//!
//! - `line.rt`: the line of a message, by its kind in `questions.rt`, `answers.rt` and `others.rt`. `naming.rt`: how it names
//!   questions, exports and methods. `parts.rt`: spans, times, descriptors and quoted text.
//! - `breaches.rt`, `oddities.rt`: what is to be said of a message behind its line.
//! - `report.rt`: what is open. `totals.rt`: a table over time.
//! - `names.rt`: where names of methods come from.
#![tactic(auto)]

mod answers;
mod breaches;
mod line;
mod names;
mod naming;
mod oddities;
mod others;
mod parts;
mod questions;
mod report;
mod totals;

pub use breaches::{write_breach, write_breach_words};
pub use line::{write_line, write_none};
pub use names::{Ends, Names, Unnamed};
pub use naming::View;
pub use oddities::{write_oddity, write_oddity_words};
pub use parts::write_quoted;
pub use report::write_open;
pub use totals::{Totals, totals_of, write_totals, write_totals_head};
