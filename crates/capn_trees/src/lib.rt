//! What a payload says, as a value of its own; the faults and the limits of reading and of writing one.
#![tactic(auto)]

mod copy;
mod element;
mod faults;
pub mod limits;
mod measure;
mod tree;
mod width;

pub use element::Element;
pub use faults::{PayloadFault, PushError, WriteFault};
pub use measure::{Measure, measure_tree};
pub use tree::{Fields, Items, Pointers, Tree, make_fields};
pub use width::Width;
