ghost use Rattle.std.specs.Prelude.{IfOk};
ghost use Rattle.vat_trace.specs.Pairs.{WorksFirst};

use crate::vats::new_ends;
use link_driver::{LinkFault, PairRun, run_pair};
use link_workers::Gate;
use script_language::Line;
use std::alloc::Global;
use std::sync::Wait;
use std::thread::Threads;
use std::time::Clock;

/// Two new vats that both have bootstrap object 0, worked by the lines of a script, each on a thread of its own, over rings of
/// that many places, as `link_driver::run_pair` does. `BadCapacity` if no ring may have so many, `Memory` if the vats or their
/// rings find none, `NoThread` if there is no thread.
pub fn work_lines<R: Threads + Wait + Sync, G: Gate, C: Clock + Sync>(
    alloc: Global,
    rt: &R,
    clock: &C,
    lines: &[Line],
    gate: &G,
    capacity: usize,
    max_turns: u32,
) -> Result<PairRun, LinkFault>
    ensures { IfOk result (λ run. WorksFirst lines.now run.a run.b run.gathered.both) }
{
    // Each arm by itself: a result that is handed on whole leaves its clauses to be proved by cases.
    let (a, b) = match new_ends(alloc, capacity) {
        Ok(ends) => ends,
        Err(fault) => return Err(fault),
    };
    match run_pair(alloc, rt, clock, a, b, lines, gate, max_turns) {
        Ok(run) => return Ok(run),
        Err((fault, _, _)) => return Err(fault),
    }
}
