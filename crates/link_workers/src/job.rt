use crate::signals::Signals;
use rpc_msg::Vat;
use script_language::Line;
use std::alloc::Global;

/// What a worker is to do, and with whom.
pub struct Job<'s, G, C> {
    pub alloc: Global,
    /// Whose lines it plays.
    pub vat: Vat,
    /// Those of both vats, in the order of the script.
    pub lines: &'s [Line],
    pub gate: &'s G,
    /// To sleep by, if there was no frame.
    pub clock: &'s C,
    /// What it tells the other worker, and hears from it.
    pub signals: &'s Signals,
    /// How many turns in a row may find no frame.
    pub max_turns: u32,
}

// By hand, so that nothing is asked of the gate and the clock, which are only lent.
impl<'s, G, C> Drop for Job<'s, G, C> {
    fn drop(self) {
        let Job {
            alloc: _,
            vat: _,
            lines: _,
            gate: _,
            clock: _,
            signals: _,
            max_turns: _,
        } = self;
    }
}
