ghost use Rattle.std.specs.Prelude.{◌≡◌};
ghost use Rattle.rpc_machine.specs.Numbers.{fault_number};

use thiserror::Error;

/// Why a received message, or want of room, takes a vat down.
#[derive(Clone, Copy, Debug, PartialEq, Eq, Drop, Error)]
pub enum Fault {
    /// A Bootstrap's or a Call's question id is that of an answer.
    #[error("the question id is in use")]
    QuestionInUse,
    /// There is no such question, or it has returned.
    #[error("no such question")]
    UnknownQuestion,
    /// There is no such export.
    #[error("no such export")]
    UnknownExport,
    /// There is no such answer, or its Finish has come.
    #[error("no such answer")]
    UnknownAnswer,
    /// More is given back than an export's count, or nothing.
    #[error("more is released than was given")]
    OverRelease,
    /// A Resolve of a promise that had its Resolve.
    #[error("the promise is resolved twice")]
    ResolvedTwice,
    /// A Resolve of an import that is no promise.
    #[error("the import is no promise")]
    NotAPromise,
    /// The target of a Disembargo does not lead back to its sender's side.
    #[error("the disembargo's target does not lead back")]
    DisembargoNotLoopback,
    /// There is no such embargo.
    #[error("no such embargo")]
    UnknownEmbargo,
    /// A descriptor of another kind than its import's, or of an import that had its Resolve.
    #[error("a descriptor of another kind than its import")]
    KindMismatch,
    /// The payload's capabilities and the descriptors differ in number.
    #[error("the payload's capabilities and the descriptors differ in number")]
    BadPayload,
    /// A Call would have to wait where no more may.
    #[error("too many calls wait")]
    HeldLimit,
    /// A message came back that every vat understands.
    #[error("a message came back that every vat understands")]
    UnimplementedAnswer,
    /// A growth was refused, or a limit would be passed.
    #[error("out of memory, or past a limit")]
    WantOfRoom,
    /// The peer sent an Abort.
    #[error("the peer aborted")]
    PeerAbort,
}

impl Fault {
    /// Its number, as Aborts and traces show it.
    pub fn code(self) -> u16
        ensures { result ≡ fault_number self }
    {
        match self {
            Fault::QuestionInUse => 20,
            Fault::UnknownQuestion => 21,
            Fault::UnknownExport => 22,
            Fault::UnknownAnswer => 23,
            Fault::OverRelease => 24,
            Fault::ResolvedTwice => 25,
            Fault::NotAPromise => 26,
            Fault::DisembargoNotLoopback => 27,
            Fault::UnknownEmbargo => 28,
            Fault::KindMismatch => 29,
            Fault::BadPayload => 30,
            Fault::HeldLimit => 31,
            Fault::UnimplementedAnswer => 32,
            Fault::WantOfRoom => 33,
            Fault::PeerAbort => 34,
        }
    }
}
