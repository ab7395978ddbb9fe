//! A connection with an interface of plain numbers and copied bytes (docs/languages.md). A part of the outbound bytes may be taken, and
//! an event can be looked at before it is taken. References, calls, tasks, promises, levels and kinds are plain numbers.
//!
//! - `desk.rt`: `Desk`, a connection with what was taken out of it and not handed on; the bytes of both directions. `byte_queue.rt`:
//!   bytes of which the front may be taken.
//! - `events.rt`: the next event is copied out, if there is room for it. `notice.rt`: `Notice`, what an event says in numbers.
//! - The commands by name: `calls.rt`, `refs.rt`, `promises.rt`, `tasks.rt`. `queries.rt`: what is asked of the vat.
//! - `lead.rt`: `Lead`, where a reference leads, in numbers.
//! - `given.rt`: what is given by numbers and bytes becomes what the connection takes. `copies.rt`: what is handed out is copied.
//! - `not_done.rt`: why a call is not done.
//! - `payloads.rt`: payloads made of numbers, a text and capabilities, and looked into.
//!
//! Contracts see a desk as its connection, the bytes that wait, and the event that was looked at (`specs/Desks.antt`).
#![tactic(auto)]

mod byte_queue;
mod calls;
mod copies;
mod desk;
mod events;
mod given;
mod lead;
mod not_done;
mod notice;
mod payloads;
mod promises;
mod queries;
mod refs;
mod tasks;

pub use byte_queue::Waiting;
pub use desk::Desk;
pub use lead::Lead;
pub use not_done::NotDone;
pub use notice::Notice;
pub use payloads::{contents, number_at, reference_at, text_at};
