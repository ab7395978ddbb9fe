//! What an application's calls and answers say: made in one call, and the references found in what came.
//!
//! - `payloads.rt`: `contents` and `payload`, of numbers, a text and capabilities. `references.rt`: `reference_at`, the reference
//!   that came for the capability at a path.
//!
//! What is made reads back (`specs/Contents`): the numbers are the data of the struct, the text is its first pointer, and
//! the capabilities are the pointers behind it.
#![tactic(auto)]

mod payloads;
mod references;

pub use payloads::{contents, payload};
pub use references::reference_at;
