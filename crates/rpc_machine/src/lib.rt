//! The machine of a vat: what its core holds, in types; what each of its steps does, what two vats do, and what is
//! promised of them, in the definitions of specs/. Of code it has the numbers of refusals and faults alone.
//!
//! - `node.rt`: nodes. `calls.rt`: calls that wait, outcomes, promises. `entries.rt`: what the tables keep.
//! - `command.rt`: commands, answers, refusals, effects, levels. `event.rt`: events of two vats. `fault.rt`: faults.
//! - `laws.rt`: what is proved, on functions that run no code.
#![tactic(auto)]

mod calls;
mod command;
mod entries;
mod event;
mod fault;
mod laws;
mod node;

pub use calls::{Caller, HeldCall, KeptOutcome, OwnCall, Promise, Request, Value, WaitingCall};
pub use command::{CallCommand, Command, Effects, Granted, Level, Refusal};
pub use entries::{
    AnswerEntry, Embargo, Export, Finishing, Import, Question, Reference, Resolution, Returned,
    Role, SenderKind,
};
pub use event::Event;
pub use fault::Fault;
pub use laws::{down_stays_down, idle_is_none_pending, sends_raise_counts, settles_where_it_leads};
pub use node::{Node, Reason};
pub use rpc_journal;
pub use rpc_journal::rpc_msg;
