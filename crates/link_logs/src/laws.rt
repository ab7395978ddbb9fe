//! What is proved of logs. The function runs no code: what it ensures is the law.

ghost use Rattle.link_logs.specs.Orders.{OrdersAreRuns};

use laws_ends::names_stay;
use laws_runs::{calls_are_counted, logs_are_runs};

/// Two logs of two new vats of level 1 that have one order are a run of two vats, whose journal is what the ends wrote of
/// their steps, put together in that order. It ends where the cores are, with what was made and not received on its way.
pub fn orders_are_runs()
    ensures { OrdersAreRuns }
{
    calls_are_counted();
    logs_are_runs();
    names_stay();
}
