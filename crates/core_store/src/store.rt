ghost use Rattle.std.specs.Prelude.{◌≡◌, []};

use core_refcounts::Names;
use core_waits::Waits;
use rpc_machine::{Level, OwnCall, Question, Reference};
use rpc_msg::{ObjectId, Vat};
use std::alloc::Global;
use vat_tables::{Answers, Exports, Imports, Questions, Rising};

/// All that a vat's core holds. Its fields are open to the crates of the core; what holds of them together is `IsSound`
/// of the definitions, which each function of these crates requires and keeps.
#[derive(Drop)]
pub struct Store {
    pub vat: Vat,
    pub level: Level,
    pub bootstrap: Option<ObjectId>,
    /// What this vat asked, by ids of its own.
    pub questions: Questions<Question>,
    /// What the peer asked, by its ids.
    pub answers: Answers,
    /// What the peer gave, by its ids.
    pub imports: Imports,
    /// What this vat gave the peer, by ids of its own.
    pub exports: Exports,
    pub refs: Rising<Reference>,
    /// The application's unfinished calls.
    pub calls: Rising<OwnCall>,
    /// The tasks that the application did not answer, each with the key of its outcome.
    pub tasks: Rising<u64>,
    /// The promises that the application did not settle, each with its key.
    pub unsettled: Rising<u64>,
    /// Own promises, kept outcomes and embargoes, with the calls that wait there.
    pub waits: Waits,
    /// How many places name each promise, outcome, import, question and object.
    pub names: Names,
    pub next_ref: u64,
    pub next_call: u64,
    pub next_task: u64,
    pub next_promise: u64,
    /// So many more entries of every kind, and names, need no more memory.
    pub slack: usize,
    /// No fewer than the entries and names that were ever added, so that no count outgrows 64 bits.
    pub added: u64,
    /// So many links at most lead on from any node.
    pub links: u64,
    /// The number with which the vat went down.
    pub down: Option<u16>,
}

impl Store {
    ghost use Rattle.rpc_machine.specs.State.{start};
    ghost use Rattle.core_store.specs.Holding.{state_of, IsSound};

    /// What a new vat holds: no call is taken out to be routed. Takes no memory.
    pub fn new(vat: Vat, level: Level, bootstrap: Option<ObjectId>, alloc: Global) -> Self
        ensures state { state_of result ≡ start vat level bootstrap }
        ensures sound { IsSound result }
        ensures none_taken { result.waits.taken ≡ [] }
    {
        Store {
            vat,
            level,
            bootstrap,
            questions: Questions::new(alloc),
            answers: Answers::new(alloc),
            imports: Imports::new(alloc),
            exports: Exports::new(alloc),
            refs: Rising::new(alloc),
            calls: Rising::new(alloc),
            tasks: Rising::new(alloc),
            unsettled: Rising::new(alloc),
            waits: Waits::new(alloc),
            names: Names::new(alloc),
            next_ref: 0,
            next_call: 0,
            next_task: 0,
            next_promise: 0,
            slack: 0,
            added: 1,
            links: 1,
            down: None,
        }
    }
}
