//! What an application names of its vat, re-exported by one crate (`docs/embedding.md`).
//!
//! A [`Host`] is a vat that keeps what its steps leave to do; a [`Core`] is the vat alone, whose calls answer with their
//! [`Effects`]. Neither has a clock, a thread or a connection: the application commands its vat, hands it the messages that
//! come (`receive`), and carries away those that are to be sent.
//!
//! The life of a call. The caller takes the peer's bootstrap object (`bootstrap`, `result_of`), or any reference that it
//! was given, and calls it (`call`); `field` and `result_of` refer to what the results will have, at once. At the other
//! vat `next_event` gives the call, which is served by `answer` or `fail`, now or later. Then `next_event` gives it to the caller
//! with its outcome, and the caller finishes it.
//!
//! ```text
//! let bootstrap = host.bootstrap()?;
//! let object = host.result_of(bootstrap)?; // what the call gives, now or later
//! let (payload, refs) = contents(alloc, &[7], "seven", &[])?;
//! let call = host.call(CallCommand { reference: object, interface: 0, method: 0, payload, refs })?;
//! ```
//!
//! What must be given back, or it stays at both vats:
//!
//! - each reference, by `drop_ref`: those that were made, and those in `Delivery.refs` and `Ended.refs`;
//! - each call, by `finish`, once it has ended or before; each task, by `answer` or `fail`; each promise, by `resolve` or
//!   `reject`.
//!
//! Two new hosts of level 1 whose messages are handed over in order keep all that is promised of two vats in one world:
//! [`hosts_are_worlds`] has it as its contract, and runs no code.
//!
//! What is to be done: all messages of `next_message` go to the peer in this order, each once; calls of `next_event` are
//! served in this order by whoever wants an object's calls in order. [`exchange`] carries the messages of two hosts in one
//! process.
//!
//! Going down: by `shut`, by a fault of the peer, by its Abort, or when room or memory runs out. The last message is
//! then an Abort, unless that of the peer was the reason: send it, and close the connection. Everything else is gone.
//!
//! Refusals: a refused command changes nothing and comes back ([`Refused`]); [`explain`] says of which reference, call,
//! task or promise it speaks. Ids are plain numbers: one of the other vat may be taken for one of this vat's.
//!
//! Payloads: [`contents`] makes one of numbers, a text and references, [`Payload::write`] any; what came is looked into by
//! [`Payload::view`], and [`reference_at`] is the reference of a capability in it.
//!
//! - `explanation.rt`: of what a refusal speaks. All else stands in the crates below.
#![tactic(auto)]

mod explanation;

pub use capn_trees::{Element, Fields, Items as Elements, WriteFault};
pub use capn_wire::{Kind, Place, View};
pub use explanation::{Explained, explain, explain_call};
pub use rpc_journal::{Advanced, Counts, Delivery, Ended, Outcome};
pub use rpc_machine::{CallCommand, Command, Effects, Fault, Granted, Level, Refusal};
pub use rpc_msg::{
    CallId, CapAt, Exception, ExceptionKind, Items, Memory, Message, ObjectId, Op, Payload,
    PayloadFault, Pointers, PromiseId, PushError, RefId, Stamp, TaskId, Text, Tree, Vat,
};
pub use vat_host::{Answer, Core, Event, Host, Refused, exchange};
pub use vat_hosts::{exchange_hands_over, hosts_are_worlds};
pub use vat_payloads::{contents, reference_at};
