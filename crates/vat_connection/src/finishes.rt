//! When a Finish goes.
ghost use Rattle.std.specs.Prelude.{◌≡◌};
ghost use Rattle.vat_connection.specs.Speaking.{finishing};

use crate::connection::Connection;
use peer_adapter::Finishes;

impl Connection {
    /// The Finish of a call that goes out from now on goes at once, as it does from the beginning, or behind its Return. The
    /// second is for a peer that sends no Return for a call of which it heard the Finish before (docs/messages.md, "Calls
    /// that were let go early"). With another one a call that is let go runs to its end there. Of a call that went out
    /// before it stays as it was. Takes no memory.
    pub fn set_finishes(&mut self, finishes: Finishes)
        ensures { self.new ≡ record self.old { speaker = finishing self.old.speaker finishes } }
    {
        self.speaker.set_finishes(finishes);
    }
}
