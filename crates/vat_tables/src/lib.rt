//! The tables of a vat: its questions, answers, exports and imports, and the pool of its waiting calls.
//!
//! - `questions.rt`, `exports.rt`: the tables under ids that this vat picks. `keyed.rt`: those under ids that the peer picks,
//!   the answers and the imports. `held_pool.rt`: the pool.
//! - What they, and the crates above, keep entries in: `slots.rt` under ids that the table picks, `numbered.rt` under numbers,
//!   `picked.rt` under keys that the table picks. `index.rt` has ids by node. Under numbers that rise: `Rising` of `rising_table`.
//! - `fault.rt`: why one refuses.
#![tactic(auto)]

mod exports;
mod fault;
mod held_pool;
mod index;
mod keyed;
mod numbered;
mod picked;
mod questions;
mod slots;

pub use exports::Exports;
pub use fault::{PeerFault, TABLE_LIMIT, TableFault};
pub use held_pool::{HeldPool, ListKey, POOL_LIMIT};
pub use keyed::{Answers, Imports, Keyed};
pub use numbered::Numbered;
pub use picked::Picked;
pub use questions::Questions;
pub use rising_table::Rising;
