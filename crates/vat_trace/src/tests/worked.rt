//! Two new vats, worked by the lines of a script.
use crate::work::work_lines;
use link_driver::PairRun;
use link_workers::Gate;
use rpc_msg::Memory;
use script_language::{Program, read_script};
use std::alloc::Global;
use std::sync::Wait;
use std::thread::Threads;
use std::time::Clock;

/// Works a script over rings of so many places, with so many turns in a row that may find no frame. What goes wrong before the
/// work begins is one error.
pub(super) fn work<R: Threads + Wait + Clock + Sync, G: Gate>(
    rt: &R,
    alloc: Global,
    script: &str,
    gate: &G,
    (capacity, max_turns): (usize, u32),
) -> Result<PairRun, Memory> {
    let Ok(lines) = read_script(alloc, Program::Pair, script.as_bytes()) else {
        return Err(Memory);
    };
    match work_lines(alloc, rt, rt, &lines, gate, capacity, max_turns) {
        Ok(run) => Ok(run),
        Err(_) => Err(Memory),
    }
}
