//! Reads payloads: the segments of a message, the checks on all that its root leads to, the tree that it says, and places
//! in it, of which what is answered is what the tree says.
#![tactic(auto)]

mod build;
mod document;
mod layout;
mod message;
mod numbers;
mod place;
mod pointer;
mod referent;
mod span;
mod text;
mod view;
mod walk;

pub use build::build_tree;
pub use document::Document;
pub use message::Message;
pub use place::{Kind, Place};
pub use view::View;
pub use walk::{MOST_COUNTED, visited_within, visited_words};
