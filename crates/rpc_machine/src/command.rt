ghost use Rattle.std.specs.Prelude.{◌≡◌};
ghost use Rattle.rpc_machine.specs.Numbers.{refusal_number};

use rpc_journal::rpc_msg::{
    CallId, Exception, Items, Memory, Message, ObjectId, Op, Payload, PromiseId, RefId, TaskId,
};
use rpc_journal::{Advanced, Delivery, Ended};
use thiserror::Error;

/// How much of the protocol a vat speaks (`rpc.capnp`, its levels).
#[derive(Clone, Copy, Debug, PartialEq, Eq, Drop)]
pub enum Level {
    /// Calls and bootstrap objects: no capability in a message but a Bootstrap's.
    Zero,
    /// References and promises too.
    One,
}

/// A call as the application makes it.
#[derive(Drop)]
pub struct CallCommand {
    pub reference: RefId,
    pub interface: u64,
    pub method: u16,
    pub payload: Payload,
    /// One for each capability of the payload; they stay the caller's.
    pub refs: Items<RefId>,
}

/// What an application asks of its vat.
#[derive(Drop)]
pub enum Command {
    /// Make a reference to an object of its own.
    Host(ObjectId),
    /// Make a second reference with the same head.
    CloneRef(RefId),
    /// Have no more use for a reference.
    DropRef(RefId),
    /// Ask for the peer's bootstrap object.
    Bootstrap,
    /// Make a call.
    Call(CallCommand),
    /// Make a reference to what stands at a path of a call's results.
    Field(CallId, Items<Op>),
    /// Make a promise, and a reference to it.
    Promise,
    /// Settle a promise to what a reference leads to.
    Resolve(PromiseId, RefId),
    /// Break a promise.
    Reject(PromiseId, Exception),
    /// Give a task its results.
    Answer(TaskId, Payload, Items<RefId>),
    /// Give a task an exception.
    Fail(TaskId, Exception),
    /// Have no more use for a call.
    Finish(CallId),
    /// Take the shorter path to which the reference's promise was resolved.
    Advance(RefId),
    /// Take the vat down, with that number.
    Shut(u16),
}

/// What a command that is not refused answers, beside its effects.
#[derive(Clone, Copy, Debug, PartialEq, Eq, Drop)]
pub enum Granted {
    Done,
    Reference(RefId),
    Call(CallId),
    Promise(PromiseId, RefId),
    Advanced(Advanced),
}

/// Why a command is refused. Its arguments are handed back and nothing is changed. If several reasons hold, the first
/// of this order is given: Down, Level, UnknownRef, UnknownCall, UnknownTask, UnknownPromise, CapCount, LongPath, Cycle,
/// Full, Memory.
#[derive(Clone, Copy, Debug, PartialEq, Eq, Drop, Error)]
pub enum Refusal {
    /// A growth was refused.
    #[error("out of memory")]
    Memory,
    /// A table, a count or a number would pass its limit.
    #[error("a limit is reached")]
    Full,
    /// The vat is down.
    #[error("the vat is down")]
    Down,
    /// There is no such reference.
    #[error("no such reference")]
    UnknownRef,
    /// There is no such call, or it was finished.
    #[error("no such call")]
    UnknownCall,
    /// There is no such task, or it was answered.
    #[error("no such task")]
    UnknownTask,
    /// There is no such promise, or it was settled.
    #[error("no such promise")]
    UnknownPromise,
    /// The promise would be settled to itself.
    #[error("the promise would lead to itself")]
    Cycle,
    /// The payload has another number of capabilities than references were given.
    #[error("the payload's capabilities and the references differ in number")]
    CapCount,
    /// The path has more than 16 steps.
    #[error("the path is too long")]
    LongPath,
    /// A vat of level 0 has no promises and sends no references.
    #[error("a vat of level 0 has no promises and sends no references")]
    Level,
}

impl Refusal {
    /// Its number, as traces show it.
    pub fn code(self) -> u16
        ensures { result ≡ refusal_number self }
    {
        match self {
            Refusal::Memory => 1,
            Refusal::Full => 2,
            Refusal::Down => 3,
            Refusal::UnknownRef => 4,
            Refusal::UnknownCall => 5,
            Refusal::UnknownTask => 6,
            Refusal::UnknownPromise => 7,
            Refusal::Cycle => 8,
            Refusal::CapCount => 9,
            Refusal::LongPath => 10,
            Refusal::Level => 11,
        }
    }
}

impl From<Memory> for Refusal {
    ghost use Rattle.std.specs.Prelude.{◌≡◌};
    ghost use Rattle.rpc_machine.specs.declared.command.Refusal.TheVariants as refusal;

    ghost from_gives = { λ _ r. r ≡ refusal.Memory };

    fn from(_want: Memory) -> Refusal {
        Refusal::Memory
    }
}

/// What a step of a core does beside its new state. It can't be let go unseen: who has one takes it apart, hands it on, or
/// gives it back to where it came from.
pub struct Effects {
    /// Messages for the peer, in order.
    pub sends: Items<Message>,
    /// Calls that reached this vat's objects, in order.
    pub deliveries: Items<Delivery>,
    /// Calls of this vat's application that have their outcome, in order.
    pub answers: Items<Ended>,
    /// The fault, if the step took the vat down.
    pub down: Option<u16>,
}
