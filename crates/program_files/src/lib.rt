//! The texts that a program reads and writes whole, and the failures that any program may say.
//!
//! - `texts.rt`: a text is read from a reader and written to a writer. `fault.rt`: why a program fails, whatever it reads, and
//!   what it says of that.
//!
//! What a program says of what is wrong with its input stands with the program.
#![tactic(auto)]

mod fault;
mod texts;

pub use fault::{FAILED, ProgramFailure, unread};
pub use texts::{read_text, write_text};
