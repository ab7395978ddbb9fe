//! A vat that speaks with another by bytes, without input or output of its own (docs/embedding.md, "Over bytes"). The
//! bytes of the peer are handed to it in any pieces, and the bytes for the peer are taken from it.
//!
//! - `connection.rt`: `Connection`, a vat with the streams of both directions, and what is told of it. The commands by name: `calls.rt`,
//!   `refs.rt`, `promises.rt`, `tasks.rt`.
//! - `speaker.rt`: a vat with the bytes that it says and the adapter between it and its peer, and its commands. `frame.rt`: what a
//!   frame has it hear. `departures.rt`: what it says becomes frames.
//! - `inflow.rt`: what came and was not heard. `arrivals.rt`: the vat hears each frame in its turn. `load.rt`: how much of what came is
//!   held, and how much may be.
//! - `open_calls.rt`: the own calls that are open, which end when the vat goes down.
//! - `places.rt`: whether the exports that an answer or a resolve may want have a place.
//! - `finishes.rt`: when a Finish goes.
//! - `laws.rt`: that pieces do not matter, and that the load is bounded, as contracts of functions that do nothing.
//!
//! Contracts see a connection as `Connected` (`specs/Connecting.antt`). What its calls name of the crates below is given out here.
#![tactic(auto)]

mod arrivals;
mod calls;
mod connection;
mod departures;
mod finishes;
mod frame;
mod inflow;
mod laws;
mod load;
mod open_calls;
mod places;
mod promises;
mod refs;
mod speaker;
mod tasks;

pub use connection::Connection;
pub use laws::{load_is_bounded, pieces_are_one};
pub use load::{Limits, Load};
pub use peer_adapter::Finishes;
pub use rpc_journal::{Advanced, Delivery, Ended, Outcome};
pub use rpc_machine::{CallCommand, Command, Granted, Level, Refusal};
pub use rpc_msg::{
    CallId, Exception, ExceptionKind, Items, Memory, ObjectId, Op, Payload, PromiseId, RefId,
    TaskId, Text, Vat,
};
pub use vat_host::{Core, Event, ImportKind, PeerPlace, Place, Refused, TableSizes};
