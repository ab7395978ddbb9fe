//! A vat with what its steps leave to do: what an application would else keep itself (`docs/embedding.md`).
//!
//! - `host.rt`: `Host`, a core with what is to be done: commands of any kind, messages that come, and taking out what is to be
//!   done. The commands by name: `calls.rt`, `refs.rt`, `promises.rt`, `tasks.rt`.
//! - `event.rt`: what an application is told.
//! - `kept.rt`: two queues, of messages to send and of events to tell. A place for the effects of a step is made before the step,
//!   and one for an Abort is kept from the beginning on, so nothing that a step says is lost.
//! - `list_queue.rt`, `event_queue.rt`: queues that take in whole lists, each in one place, and give out single items. Memory of
//!   lists whose items were all taken out goes back to the core.
//! - `hosted_objects.rt`: the objects of the application, by which a released one is known. `unanswered.rt`: the calls of the peer that
//!   are not answered, by which a cancelled task is known. `watched.rt`: what a message makes known.
//! - `exchanges.rt`: two hosts hand their messages to each other.
//!
//! Contracts see a host as `Hosted` (`specs/Hosting`): the state of its core, its two queues, the objects that were hosted, the calls of
//! the peer that are not answered, and whether the application was told that the vat is down.
#![tactic(auto)]

mod calls;
mod event;
mod event_queue;
mod exchanges;
mod host;
mod hosted_objects;
mod kept;
mod list_queue;
mod promises;
mod refs;
mod tasks;
mod unanswered;
mod watched;

pub use event::{Event, PeerPlace};
pub use exchanges::exchange;
pub use host::Host;
pub use vat_core::{Answer, Core, ImportKind, Place, Refused, TableSizes};
