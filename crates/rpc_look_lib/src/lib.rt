//! A look into a conversation of any two vats, as a program: what its words ask for, what it reads, and what it says
//! (docs/looking.md).
//!
//! - `options.rt`: the words. `failure.rt`: why it stops, and its status.
//! - `watch.rt`: frames are judged one by one. `talk.rt`: a conversation so far. `stream.rt`: the bytes of one end.
//! - `capture.rt`: a conversation of which pieces come. `reading.rt`: a log that comes in parts. `weaving.rt`: two files,
//!   without an order between them.
//! - `page.rt`: what is made of a conversation, and the text that is written of one. `naming.rt`: by what names. `telling.rt`:
//!   what is said of a frame. `json.rt`: lines of JSON. `sheet.rt`: what is said and not written yet.
#![tactic(auto)]

mod capture;
mod failure;
mod json;
mod naming;
mod options;
mod page;
mod reading;
mod sheet;
mod stream;
mod talk;
mod telling;
mod watch;
mod weaving;

pub use failure::{Failure, status, tell, unreadable};
pub use naming::{Naming, read_schema};
pub use options::{Options, Source};
pub use page::Page;
pub use reading::{look_log, read_log};
pub use watch::{Judged, Told};
pub use weaving::{look_two, read_two};
