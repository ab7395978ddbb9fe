//! No honest vat is accused by a look: what the books of `look_books` say of two vats of this project, from whatever point between
//! them. No code runs here: what the function ensures is the law.
#![tactic(auto)]

mod laws;

pub use laws::none_is_accused;
