//! Contents built place by place, and payloads looked into by paths, for C (docs/languages.md, "Trees in C").
//!
//! - `content.rt`: `Content`, what stands under a number: a struct or a list that is being built, or a payload that was read.
//! - `numbers.rt`: numbers of a width, in data words and as lists. `leaves.rt`: what a pointer leads to that is made whole: a
//!   text, bytes, numbers, a capability.
//! - `trees.rt`: `Trees`, the contents under their numbers: made, changed, put together. `moves.rt`: one becomes a part of another.
//!   `written.rt`: the bytes of one.
//! - `read.rt`: payloads are read, and what stands at a path of one. `copies.rt`: what is handed out is copied.
//! - `fault.rt`: `TreeFault`, why nothing is done.
//!
//! A call that is refused changes nothing.
#![tactic(auto)]

mod content;
mod copies;
mod fault;
mod leaves;
mod moves;
mod numbers;
mod read;
mod trees;
mod written;

pub use content::{Content, Draft};
pub use fault::TreeFault;
pub use read::Standing;
pub use trees::Trees;
