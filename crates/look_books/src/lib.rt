//! The books of a conversation of any two vats, of what was said at a point between them: whether a message may be said,
//! which messages it belongs to, and what is open (docs/looking.md).
//!
//! - `act.rt`: what a message does to the books. `question.rt`, `export.rt`: what is kept of a question and of an export.
//! - `end.rt` is what one end said so far, `books.rt` what both did.
//! - `judge.rt`: the checks of a message; `asking.rt`, `answering.rt`, `naming.rt` and `returning.rt` are those of questions,
//!   of answers, of what descriptors name, and of counts that are given back. `breach.rt`, `oddity.rt`: what they find.
//! - `take.rt`: a message was said; `held.rt` and `settle.rt` are what it does to exports and to questions.
#![tactic(auto)]

mod act;
mod answering;
mod asking;
mod books;
mod breach;
mod end;
mod export;
mod held;
mod judge;
mod naming;
mod oddity;
mod question;
mod returning;
mod settle;
mod take;

pub use act::{Asked, Back, Kind, Method, Outcome, kind_of_plain};
pub use books::{Books, Moment};
pub use breach::{Breach, GivenBack, Lost, Over, Unresolved, Use};
pub use end::{End, Kinds};
pub use export::{Export, Given, Origin};
pub use judge::Found;
pub use oddity::Oddity;
pub use question::{Closed, Finished, Question, Results, Returned};
