//! The function runs no code: what it ensures is the law.

ghost use Rattle.link_logs.specs.Promises.{OrdersKeepPromises};

use crate::laws::orders_are_runs;
use laws_sound::worlds_keep_promises;

/// Two logs of two new vats of level 1 have one order, whatever two threads did. What the ends wrote, put together in that
/// order, is the journal of a run of two vats, which ends where the ends do. All that is promised of every run holds of it.
pub fn orders_keep_promises()
    ensures { OrdersKeepPromises }
{
    orders_are_runs();
    worlds_keep_promises();
}
