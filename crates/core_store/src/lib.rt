//! All that a vat's core holds: the tables, what waits, and how many places name each thing.
//!
//! - `store.rt`: `Store`, and a new one. `changes.rt`: `fall`.
//! - `room.rt`: `reserve`. `walk.rt`: where a node leads and settles.
//!
//! A `Store` has the four tables, the application's references, calls, tasks and promises, what waits, the counts of
//! names, and the next numbers. It is a plain struct with open fields. Contracts speak of two things (`specs/Holding`):
//! `state_of store`, which is the machine's state, and `IsSound store`, which each function over a store requires and
//! keeps (the parts of it: `specs/Lib.antt`).
//!
//! `reserve` makes the slack so large as is asked, and something beyond, and changes nothing else; after it a command
//! adds what it has to, which uses up slack, and is not refused. `settle` follows at most `links` links and stops at
//! the first node that has none, which is where the machine says that the node settles, whether links go round or not.
//! `shorten` does the same if the store may be changed, and has later walks pass at once what this one passed
//! (`core_waits/src/hops.rt`). So a chain of links is walked through once, and not by each message that names its far
//! end. `fall` empties the store and takes no memory.
//!
//! The changes of a store stand in crates beside one another, each a function of its own. What adds an entry, a name or a
//! note takes one of the slack for each, and is never refused for memory; nothing takes memory.
#![tactic(auto)]

mod changes;
mod room;
mod store;
mod walk;

pub use changes::fall;
pub use room::reserve;
pub use store::Store;
pub use walk::{link, settle, shorten, shorten_all};
