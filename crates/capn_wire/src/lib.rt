//! Payloads in the Cap'n Proto encoding: read, written, and looked into.
//!
//! A payload is the bytes of a message and the number of the capabilities that go beside it. What it says is a [`Tree`].
//! A struct of one data word, with a text and the only capability behind it, is written, read, and asked where its
//! capability is:
//!
//! ```text
//! let mut pointers = Pointers::new(alloc);
//! pointers.push(Tree::text(alloc, "hello")?)?;
//! pointers.push(Tree::Cap(0))?;
//! let words = vec![in alloc; 7]?;
//! let tree = Tree::Struct { words, pointers };
//!
//! let written = Payload::write(alloc, &tree, 1)?;
//! let payload = Payload::read(alloc, written.bytes(), written.caps())?;
//! payload.cap_at(&[Op::Field(1)]); // CapAt::Cap(0)
//! payload.cap_at(&[Op::Field(0)]); // CapAt::NotCap: the text
//! payload.cap_at(&[Op::Field(2)]); // CapAt::Null: there is no third pointer
//!
//! let view = payload.view();
//! let root = view.root();
//! root.number::<u64>(0); // Some(7)
//! if let Some(text) = root.field(0) {
//!     text.text(); // Some("hello")
//! }
//! ```
//!
//! At most 16 segments of at most 65,536 words together are read, and one is written. Contents nest at most 64 levels
//! deep. At most 65,536 words of them are visited, and those of a content count each time that a pointer leads to it. A
//! tree may be 128 levels deep, and is refused when it is written if it has more than 64. A larger message, such as a
//! schema, is read as a [`Document`], within a limit on its words that its reader gives.
//!
//! Bytes that are no payload are refused by the first check that fails, as a [`PayloadFault`] with its number; nothing is
//! read of them. So a [`Payload`] can't be malformed, and `cap_at` and `tree` of one have no faults but running out of memory.
//! What is written reads back as the tree ([`laws::write_and_read`]). The rules and the order of the checks are in
//! docs/encoding.md.
#![tactic(auto)]

mod faults;
pub mod laws;
mod lookup;
mod path;
mod payload;

pub use capn_reading::{Document, Kind, MOST_COUNTED, Place, View};
pub use capn_trees::{Element, Fields, Items, PayloadFault, Pointers, PushError, Tree, WriteFault};
pub use faults::Memory;
pub use path::{CapAt, Op};
pub use payload::Payload;
