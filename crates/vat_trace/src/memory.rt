//! Whether a vat went down while a script was worked because it lacked memory.

use link_driver::{PairRun, VatSide};
use link_workers::WorkerEnd;
use rpc_machine::Fault;

/// Whether a vat went down since a growth was refused. Its number is that of a limit too, and it knows which it was.
pub(crate) fn lacked_memory(run: &PairRun) -> bool {
    let (a, b) = run.gathered.sides();
    fell_without_limit(run.a, a) || fell_without_limit(run.b, b)
}

fn fell_without_limit(why: WorkerEnd, side: &VatSide) -> bool {
    why == WorkerEnd::Down(Fault::WantOfRoom.code()) && !side.met_limit()
}
