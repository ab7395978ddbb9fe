ghost use Rattle.std.specs.Prelude.{◌≡◌, IfOk, IfErr};
ghost use Rattle.link_rings.specs.declared.fault.LinkFault.TheVariants as fault;
ghost use Rattle.link_ends.specs.Ends.{AreEnds};
ghost use Rattle.link_driver.specs.Runs.{AreWorked};

use crate::worker::Worked;
use crate::{EndA, EndB, Gathered, LinkFault, gather};
use link_workers::{Gate, Job, Signals, WorkerEnd, work_both};
use rpc_msg::Vat;
use script_language::Line;
use std::alloc::Global;
use std::sync::Wait;
use std::thread::Threads;
use std::time::Clock;

/// How the work of both vats ended, and the two ends side by side.
#[derive(Drop)]
pub struct PairRun {
    pub a: WorkerEnd,
    pub b: WorkerEnd,
    pub gathered: Gathered,
}

/// Works both ends of one link, A's on a thread of its own and B's on this one, until each worker has ended. Each plays the lines
/// of its vat, and then takes turns in which it answers each open task, as `link_workers::work` does. At most `max_turns` turns
/// in a row find no frame, and each of them sleeps by the clock. The gate is asked before and after each answer of a task.
///
/// `NoThread` if there is no thread: both ends come back as they were.
pub fn run_pair<R: Threads + Wait + Sync, G: Gate, C: Clock + Sync>(
    alloc: Global,
    rt: &R,
    clock: &C,
    a: EndA,
    b: EndB,
    lines: &[Line],
    gate: &G,
    max_turns: u32,
) -> Result<PairRun, (LinkFault, EndA, EndB)>
    requires { AreEnds a.end b.end }
    ensures worked { IfOk result (λ run. AreWorked a.end b.end lines.now run.a run.b run.gathered.both) }
    ensures unused { IfErr result (λ e. (e.0 ≡ fault.NoThread) × (e.1 ≡ a) × (e.2 ≡ b)) }
{
    let signals = Signals::new();
    let of_a = Job {
        alloc,
        vat: Vat::A,
        lines,
        gate,
        clock,
        signals: &signals,
        max_turns,
    };
    let of_b = Job {
        vat: Vat::B,
        ..of_a
    };
    match work_both(rt, &of_a, &of_b, Worked { end: a }, Worked { end: b }) {
        Ok(((a, why_a), (b, why_b))) => {
            let Worked { end: a } = a;
            let Worked { end: b } = b;
            return Ok(PairRun {
                a: why_a,
                b: why_b,
                gathered: gather(a, b),
            });
        }
        Err((a, b)) => {
            let Worked { end: a } = a;
            let Worked { end: b } = b;
            return Err((LinkFault::NoThread, a, b));
        }
    }
}
