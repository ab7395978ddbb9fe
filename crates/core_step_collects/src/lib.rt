//! What no place names goes, and what the flags of a Return and of a Finish let go.
//!
//! - `collection.rt`: `collect` lets go what no place names, one thing in a turn; it falls in the number of promises, outcomes
//!   and imports.
//! - `search.rt` takes noted keys until one is loose, and notes that one again, so that the store stays sound until it is
//!   taken out. `loose.rt` says of one key whether it is.
//! - `flags.rt`: the release flag for a list of ids, and what it gives back; `got.rt` the same for what a Return brought.
//!   Neither takes memory, nor more steps than n log n for n ids, up to 4,096: these are copied onto the stack, and `runs.rt`
//!   sorts the copy and looks at each run of one id once. Up to 64 ids, and more than 4,096, are compared with one another:
//!   each place is looked back from to the last one of the same id (`StandsBefore`), and all ids are looked at once for each
//!   id that differs. An id without an import ends the search, so there are no more of those than imports.
//!
//! What may have to go is noted, so nothing is scanned. Once nothing is noted, nothing is loose, since what would go but
//! for its names is noted if it has none (`covered` of `IsSound`).
//!
//! What goes at the end of a step goes when Finishes are made already, and `IsReady` says that none is. So the loop
//! (`collect_ending`) keeps `IsEnding`, which says no more than it needs, and `OnlyReleases` says what it leaves as it was;
//! `collect` is that loop if no Finish is made.
#![tactic(auto)]

mod collection;
mod flags;
mod got;
mod loose;
mod runs;
mod search;

pub use collection::{collect, collect_ending};
pub use flags::{flag_for, give_back, give_each, may_lose, times_given};
pub use got::{flag_for_returned, give_if_returned};
pub use loose::is_told;
pub use search::{next_loose_import, next_loose_outcome, next_loose_promise};
