//! The messages that two vats send each other, as typed values: `rpc.capnp` at levels 0 and 1.
//!
//! - `message.rt`: the messages, with the rule of each. `parts.rt`: targets and descriptors. `path.rt`: paths. `exception.rt`, `text.rt`:
//!   exceptions and texts. `ids.rt`: the vats, and the numbers of questions, exports, embargoes and references.
//! - `items.rt`: lists that contracts see as lists.
#![tactic(auto)]

mod exception;
mod ids;
mod items;
mod message;
mod parts;
mod path;
mod text;

pub use capn_wire::{CapAt, Memory, Op, Payload, PayloadFault, Pointers, PushError, Tree};
pub use exception::{Exception, ExceptionKind};
pub use ids::{
    AnswerId, CallId, EmbargoId, ExportId, ImportId, ObjectId, PromiseId, QuestionId, RefId, Stamp,
    TaskId, Vat,
};
pub use items::Items;
pub use message::{
    Call, Disembargo, DisembargoContext, Finish, Message, PlainMessage, Release, Resolve,
    ResolvedTo, Return, ReturnBody,
};
pub use parts::{Descriptor, Target};
pub use path::{PATH_LIMIT, Path};
pub use text::Text;
