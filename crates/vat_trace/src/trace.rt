ghost use Rattle.std.specs.Prelude.{◌≡◌, IfOk, IfErr, string_bytes};
ghost use Rattle.vat_trace.specs.Pairs.{IsNoted, WorksFirst};
ghost use Rattle.vat_trace.specs.Printed.{PrintsBoth, PrintsLines, FaultsLines, PrintsPair, FaultsPair};

use crate::memory::lacked_memory;
use crate::verdicts::judge;
use crate::work::work_lines;
use laws_verdicts::{every_verdict_is_good, journals_tell_runs};
use link_driver::{Gathered, JournalEntry, PairRun};
use link_workers::OpenGate;
use rpc_msg::Memory;
use script_language::{Line, Program, read_script};
use std::alloc::Global;
use std::sync::Wait;
use std::thread::Threads;
use std::time::Clock;
use vat_trace_lib::{CheckedTrace, ScriptFault, checked};

/// How many places a ring has.
const CAPACITY: usize = 16;

/// How many turns in a row may find no frame.
const MAX_TURNS: u32 = 10_000;

/// What a script leads to: its lines are worked by two new vats that both have bootstrap object 0, each on a thread of its own.
/// The trace has a head, the journal of both ends and the counts at the end; its verdict is good. So it is too if the work
/// ended by the limit of turns, or with a vat down.
///
/// `NotText` if the bytes are not UTF-8. `Line` with the number of the first line that is none, and what is wrong with it. Else
/// `Unnamed` with a line that names something which is not there when its turn comes, the lower one if there is one of
/// each vat. `Memory` if a growth was refused, that of a vat too, or if there is no thread.
pub fn trace_of_pair<R: Threads + Wait + Sync, C: Clock + Sync>(
    alloc: Global,
    rt: &R,
    clock: &C,
    script: &[u8],
) -> Result<CheckedTrace, ScriptFault>
    ensures prints { IfOk result (λ trace. PrintsPair script.now (string_bytes trace.text) trace.verdict) }
    ensures faults { IfErr result (λ fault. FaultsPair script.now fault) }
{
    let lines = match read_script(alloc, Program::Pair, script) {
        Ok(lines) => lines,
        Err(script_language::ScriptFault::Memory) => return Err(ScriptFault::Memory),
        Err(script_language::ScriptFault::NotText) => return Err(ScriptFault::NotText),
        Err(script_language::ScriptFault::Line(number, fault)) => {
            return Err(ScriptFault::Line(number, fault));
        }
    };
    // Each arm by itself: a result that is handed on whole leaves its clauses to be proved by cases.
    match trace_of_lines(alloc, rt, clock, &lines) {
        Ok(trace) => return Ok(trace),
        Err(fault) => return Err(fault),
    }
}

fn trace_of_lines<R: Threads + Wait + Sync, C: Clock + Sync>(
    alloc: Global,
    rt: &R,
    clock: &C,
    lines: &[Line],
) -> Result<CheckedTrace, ScriptFault>
    ensures prints { IfOk result (λ trace. PrintsLines lines.now (string_bytes trace.text) trace.verdict) }
    ensures faults { IfErr result (λ fault. FaultsLines lines.now fault) }
{
    let run = match work_lines(alloc, rt, clock, lines, &OpenGate, CAPACITY, MAX_TURNS) {
        Ok(run) => run,
        Err(_) => return Err(ScriptFault::Memory),
    };
    if lacked_memory(&run) {
        return Err(ScriptFault::Memory);
    }
    trace_of_run(alloc, lines, &run)
}

// A run is lent here: at each exit there would be much to drop.
fn trace_of_run(alloc: Global, lines: &[Line], run: &PairRun) -> Result<CheckedTrace, ScriptFault>
    requires { WorksFirst lines.now run.now.a run.now.b run.now.gathered.both }
    ensures prints { IfOk result (λ trace. PrintsLines lines.now (string_bytes trace.text) trace.verdict) }
    ensures faults { IfErr result (λ fault. FaultsLines lines.now fault) }
{
    // Only the contract speaks of it, and the compiler counts it as unused.
    let _ = lines;
    // Each arm by itself: a result that is handed on whole leaves its clauses to be proved by cases.
    match judge(run.a, run.b) {
        Ok(()) => {}
        Err(fault) => return Err(fault),
    }
    match trace_of_gathered(alloc, &run.gathered) {
        Ok(trace) => return Ok(trace),
        Err(Memory) => return Err(ScriptFault::Memory),
    }
}

/// The trace of two ends that were put side by side: a head, the journal of both and the counts of both vats; and its verdict,
/// which is good. `Memory` if a growth was refused.
pub fn trace_of_gathered(alloc: Global, gathered: &Gathered) -> Result<CheckedTrace, Memory>
    ensures { IfOk result (λ trace. PrintsBoth gathered.now.both (string_bytes trace.text) trace.verdict) }
{
    journals_tell_runs();
    every_verdict_is_good();
    let journal = noted(alloc, gathered)?;
    // Each arm by itself: a result that is handed on whole leaves its clauses to be proved by cases.
    match checked(alloc, journal.as_slice()) {
        Ok(trace) => return Ok(trace),
        Err(Memory) => return Err(Memory),
    }
}

/// The journal of both, with the counts at its end.
fn noted(alloc: Global, gathered: &Gathered) -> Result<Vec<JournalEntry>, Memory>
    ensures { IfOk result (λ journal. IsNoted gathered.now.both journal.items) }
{
    let tables = gathered.tables()?;
    let mut journal = gathered.journal(alloc)?;
    match journal.push(tables) {
        Ok(()) => return Ok(journal),
        Err(_) => return Err(Memory),
    }
}
