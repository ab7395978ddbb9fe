//! How an export of the peer stands at the vat.
ghost use Rattle.std.specs.Prelude.{◌≡◌};
ghost use Rattle.peer_kinds.specs.Standings.{stands_as};

use rpc_machine::SenderKind;

/// How an export of the peer stands at a vat that has it as an import.
#[derive(Clone, Copy, Debug, PartialEq, Eq, Drop)]
pub enum Standing {
    /// The first name of it was that of an object (`senderHosted`).
    Hosted,
    /// The first name of it was that of a promise (`senderPromise`), and no Resolve of it was heard.
    Promise,
    /// It is a promise, and a Resolve of it was heard.
    Resolved,
}

impl Standing {
    /// That of an import which was named first in that kind, and of which a Resolve was heard or not.
    pub fn of(kind: SenderKind, is_resolved: bool) -> Standing
        ensures { result ≡ stands_as kind is_resolved }
    {
        if is_resolved {
            return Standing::Resolved;
        }
        match kind {
            SenderKind::Hosted => Standing::Hosted,
            SenderKind::Promise => Standing::Promise,
        }
    }
}
