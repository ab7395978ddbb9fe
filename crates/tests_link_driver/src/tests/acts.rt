//! What the applications of two vats ask of them, and when they look for a frame.
use rpc_msg::Vat;

/// What happens at a vat. Its references, calls, tasks and promises are counted from 0.
#[derive(Clone, Copy, Drop)]
pub(super) enum Act {
    /// It pops a frame, if there is one.
    Turn,
    Bootstrap,
    /// A reference to what a call gives.
    Field(u64),
    Host(u64),
    CloneRef(u64),
    /// A call through a reference, of a method.
    Call(u64, u16),
    /// A call with a reference as its argument.
    Give(u64, u16, u64),
    Promise,
    /// A promise is resolved to what a reference leads to.
    Resolve(u64, u64),
    Reject(u64),
    Answer(u64),
    /// A task is answered by a reference.
    AnswerBy(u64, u64),
    Fail(u64),
    Advance(u64),
    Finish(u64),
    LetGo(u64),
    Shut(u16),
}

/// One bootstrapped call of A at B, from the Bootstrap to the last Release.
pub(super) const FIRST: &[(Vat, Act)] = &[
    (Vat::A, Act::Bootstrap),
    (Vat::A, Act::Field(0)),
    (Vat::A, Act::Call(0, 1)),
    (Vat::B, Act::Turn),
    (Vat::B, Act::Turn),
    (Vat::A, Act::Turn),
    (Vat::B, Act::Answer(0)),
    (Vat::A, Act::Turn),
    (Vat::A, Act::Finish(1)),
    (Vat::A, Act::Finish(0)),
    (Vat::A, Act::LetGo(0)),
    (Vat::A, Act::LetGo(1)),
];

/// A call that fails, a promise that breaks, and a vat that is shut.
pub(super) const BROKEN: &[(Vat, Act)] = &[
    (Vat::A, Act::Bootstrap),
    (Vat::A, Act::Field(0)),
    (Vat::A, Act::CloneRef(0)),
    (Vat::A, Act::Call(1, 1)),
    (Vat::B, Act::Turn),
    (Vat::B, Act::Turn),
    (Vat::B, Act::Fail(0)),
    (Vat::B, Act::Promise),
    (Vat::B, Act::Reject(0)),
    (Vat::A, Act::Turn),
    (Vat::A, Act::Turn),
    (Vat::A, Act::Shut(50)),
];

/// Calls through a promise of B that is resolved to an object of A: they wait, go the long way, and are under an embargo.
pub(super) const LONG: &[(Vat, Act)] = &[
    (Vat::A, Act::Bootstrap),
    (Vat::A, Act::Field(0)),
    (Vat::A, Act::Host(5)),
    (Vat::A, Act::Give(0, 1, 1)),
    (Vat::B, Act::Turn),
    (Vat::B, Act::Turn),
    (Vat::B, Act::Promise),
    (Vat::B, Act::AnswerBy(0, 1)),
    (Vat::A, Act::Turn),
    (Vat::A, Act::Turn),
    (Vat::A, Act::Finish(1)),
    (Vat::B, Act::Turn),
    (Vat::A, Act::Call(3, 2)),
    (Vat::A, Act::Call(3, 3)),
    (Vat::B, Act::Turn),
    (Vat::B, Act::Turn),
    (Vat::B, Act::Resolve(0, 0)),
    (Vat::A, Act::Call(3, 4)),
    (Vat::A, Act::Turn),
    (Vat::A, Act::Turn),
    (Vat::A, Act::Turn),
    (Vat::A, Act::Advance(3)),
    (Vat::A, Act::Call(3, 5)),
    (Vat::A, Act::Call(3, 6)),
    (Vat::B, Act::Turn),
    (Vat::B, Act::Turn),
    (Vat::B, Act::Turn),
    (Vat::A, Act::Turn),
    (Vat::A, Act::Turn),
];

/// Then all is answered, finished and let go.
pub(super) const ENDS: &[(Vat, Act)] = &[
    (Vat::A, Act::Answer(0)),
    (Vat::A, Act::Answer(1)),
    (Vat::A, Act::Answer(2)),
    (Vat::A, Act::Answer(3)),
    (Vat::A, Act::Answer(4)),
    (Vat::B, Act::Turn),
    (Vat::B, Act::Turn),
    (Vat::B, Act::Turn),
    (Vat::A, Act::Turn),
    (Vat::A, Act::Turn),
    (Vat::A, Act::Turn),
    (Vat::A, Act::Turn),
    (Vat::A, Act::Turn),
    (Vat::A, Act::Turn),
    (Vat::A, Act::Finish(0)),
    (Vat::A, Act::Finish(2)),
    (Vat::A, Act::Finish(3)),
    (Vat::A, Act::Finish(4)),
    (Vat::A, Act::Finish(5)),
    (Vat::A, Act::Finish(6)),
    (Vat::A, Act::LetGo(0)),
    (Vat::A, Act::LetGo(1)),
    (Vat::A, Act::LetGo(2)),
    (Vat::A, Act::LetGo(3)),
    (Vat::B, Act::LetGo(0)),
    (Vat::B, Act::LetGo(1)),
    (Vat::B, Act::Turn),
    (Vat::B, Act::Turn),
    (Vat::B, Act::Turn),
    (Vat::B, Act::Turn),
    (Vat::B, Act::Turn),
    (Vat::A, Act::Turn),
];
