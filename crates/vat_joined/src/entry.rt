//! What the journal says.

use vat_connection::{Command, Event, Granted, Vat};

/// What an application did, or what it was told.
pub enum JoinedEntry {
    /// The application of that vat gave that command, which was done and granted that. A shut has no entry.
    Commanded(Vat, Command, Granted),
    /// The application of that vat was told that.
    Told(Vat, Event),
}

// By hand, so that it is proved once and not wherever an entry is let go.
impl Drop for JoinedEntry {
    fn drop(self) {
        match self {
            JoinedEntry::Commanded(_, _, _) => {}
            JoinedEntry::Told(_, _) => {}
        }
    }
}
