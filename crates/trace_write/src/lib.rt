//! Journals as lines of JSON, in both versions of the trace format (`docs/trace.md`): how they are written.
//!
//! - `line.rt`: the line of an entry. `entries.rt`: an entry as an object, by its kind. `version.rt`: the versions.
//! - `messages.rt`: messages. `parts.rt`: the other parts of entries. `lists.rt`: lists of parts. `part.rt` says what a part is.
//! - `members.rt`: the members of objects.
#![tactic(auto)]

mod entries;
mod line;
mod lists;
mod members;
mod messages;
mod part;
mod parts;
mod version;

pub use line::line_of;
pub use members::{add_member, write_number, write_numbers, write_only};
pub use messages::write_plain;
pub use part::{Part, add_part, put_part, write_under};
pub use version::TraceVersion;
