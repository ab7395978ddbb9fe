//! Two toys at work through the lines of a script.
ghost use Rattle.std.specs.Prelude.{◌≡◌};

use crate::tests::toy::{Did, Toy, two_toys};
use link_workers::{Gate, Job, OpenGate, Signals, WorkerEnd, work_both};
use rpc_msg::Vat;
use script_language::{Line, Program, read_script};
use std::alloc::{AllocError, Global};
use std::sync::Wait;
use std::thread::Threads;
use std::time::Clock;

/// A script, how many turns may find no frame, how the work of A and of B ends, and what each did first.
#[derive(Clone, Copy, Drop)]
pub struct Case {
    pub script: &'static str,
    pub max_turns: u32,
    pub ends: (WorkerEnd, WorkerEnd),
    pub begun: (&'static [Did], &'static [Did]),
}

/// How the work of both ended, whether each was given back as the vat that it was and did first what it was to do, and how much B
/// did.
#[derive(Clone, Copy, Debug, Drop)]
pub struct Played {
    pub ends: (WorkerEnd, WorkerEnd),
    pub as_begun: bool,
    pub did_b: usize,
}

fn told((a, end_a): &(Toy, WorkerEnd), (b, end_b): &(Toy, WorkerEnd), case: &Case) -> Played {
    Played {
        ends: (*end_a, *end_b),
        as_begun: a.vat == Vat::A
            && b.vat == Vat::B
            && a.did.starts_with(case.begun.0)
            && b.did.starts_with(case.begun.1),
        did_b: b.did.len(),
    }
}

/// Plays a script with rings of that many places; running out of memory, a script that is none, and a thread that cannot be had are one error.
pub fn play<R: Threads + Wait + Sync, G: Gate, C: Clock + Sync>(
    rt: &R,
    clock: &C,
    alloc: Global,
    capacity: usize,
    gate: &G,
    case: &Case,
) -> Result<Played, AllocError> {
    match read_script(alloc, Program::Pair, case.script.as_bytes()) {
        Ok(lines) => work(rt, clock, alloc, capacity, gate, &lines, case),
        Err(_) => Err(AllocError),
    }
}

fn work<R: Threads + Wait + Sync, G: Gate, C: Clock + Sync>(
    rt: &R,
    clock: &C,
    alloc: Global,
    capacity: usize,
    gate: &G,
    lines: &[Line],
    case: &Case,
) -> Result<Played, AllocError> {
    let (a, b) = two_toys(alloc, capacity)?;
    let signals = Signals::new();
    let job_a = Job {
        alloc,
        vat: Vat::A,
        lines,
        gate,
        clock,
        signals: &signals,
        max_turns: case.max_turns,
    };
    let job_b = Job {
        alloc,
        vat: Vat::B,
        lines,
        gate,
        clock,
        signals: &signals,
        max_turns: case.max_turns,
    };
    match work_both(rt, &job_a, &job_b, a, b) {
        Ok((a, b)) => Ok(told(&a, &b, case)),
        Err(_) => Err(AllocError),
    }
}

// No reference is named `obj`: a toy's calls are all made by `bootstrap`.
const THREE_CALLS: Case = Case {
    script: "# three calls\na bootstrap x\na bootstrap y\na turn\na bootstrap z\n\na finish z\n",
    max_turns: 10_000,
    ends: (WorkerEnd::Done, WorkerEnd::Done),
    begun: (
        &[
            Did::Called,
            Did::Called,
            Did::Ended(0),
            Did::Called,
            Did::Other,
            Did::Ended(1),
        ],
        &[Did::Got(0), Did::Answered(0), Did::Got(1), Did::Answered(1)],
    ),
};

#[test]
fn lines_and_turns_have_their_order(rt: HostRuntime) -> Result<(), AllocError> {
    for capacity in [1, 2, 16] {
        let played = play(&rt, &rt, rt.alloc(), capacity, &OpenGate, &THREE_CALLS)?;
        assert!(rt; played.ends == THREE_CALLS.ends && played.as_begun);
    }
    Ok(())
}
