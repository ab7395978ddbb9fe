ghost use Rattle.std.specs.Prelude.{◌≡◌, IfOk};

use crate::text::Text;
use capn_wire::Memory;
use std::alloc::Global;

/// What went wrong, by what a caller may do about it (`Exception.Type`). It is not there to say what the error is.
#[derive(Clone, Copy, Debug, PartialEq, Eq, Drop)]
pub enum ExceptionKind {
    /// It would fail again if it were tried again with nothing else changed. A vat's own exceptions are of this kind,
    /// except if a question came back Unimplemented.
    Failed,
    /// Something ran short for now. Trying again at once would make it worse; later may do.
    Overloaded,
    /// A connection was lost that this needs. What came over it has to be got anew before another try.
    Disconnected,
    /// There is no such method. Another one may do; else it is as `Failed`.
    Unimplemented,
}

/// Why a call, a promise or a connection failed (`Exception`). Left out: the trace and the obsolete fields.
#[derive(Drop)]
pub struct Exception {
    /// `type`.
    pub kind: ExceptionKind,
    /// For people to read; no decision reads it.
    pub reason: Text,
}

impl Exception {
    /// The same exception, in memory of its own.
    pub fn copy(&self, alloc: Global) -> Result<Self, Memory>
        ensures { IfOk result (λ copy. copy ≡ self.now) }
    {
        let reason = self.reason.copy(alloc)?;
        Ok(Exception {
            kind: self.kind,
            reason,
        })
    }
}
