ghost use Rattle.std.specs.Prelude.{◌≡◌, Some, IfOk, IfErr};
ghost use Rattle.link_workers.specs.Ending.{IsBack, IsEnding};

use crate::gate::Gate;
use crate::job::Job;
use crate::pair_end::PairEnd;
use crate::worker::work;
use crate::worker_end::WorkerEnd;
use rpc_msg::Vat;
use script_language::Line;
use std::snapshot::Snapshot;
use std::sync::Wait;
use std::sync::atomic::{AtomicBool, Ordering};
use std::thread;
use std::thread::{Promise, Threads};
use std::time::Clock;

/// What the thread gives back of the end that it was given.
#[derive(Drop)]
struct Given<'s, A> {
    end: Snapshot<A>,
    vat: Vat,
    lines: Snapshot<&'s [Line]>,
}

impl<'s, A: PairEnd> Given<'s, A> {
    fn of<G, C>(end: &A, job: &Job<'s, G, C>) -> Given<'s, A>
        ensures end { result.end.value ≡ end.now }
        ensures vat { result.vat ≡ job.now.vat }
        ensures lines { result.lines.value.now ≡ job.now.lines.now }
    {
        Given {
            end: Snapshot::of(end),
            vat: job.vat,
            lines: Snapshot::of(&job.lines),
        }
    }
}

impl<'s, A: PairEnd> Promise<(A, Option<WorkerEnd>)> for Given<'s, A> {
    ghost use Rattle.link_workers.specs.Ending.{IsBack};

    ghost kept_by = { λ promise result. IsBack A.steps A.same A.down_by promise.vat promise.lines.value.now promise.end.value result.0 result.1 };
}

/// Works both ends at once, the first on a thread of its own and the second on this one. None is worked before both threads
/// are there: if there is no thread, both ends come back as they were.
pub fn work_both<R: Threads + Wait + Sync, A: PairEnd + Send, B: PairEnd, G: Gate, C: Clock + Sync>(
    rt: &R,
    job_a: &Job<G, C>,
    job_b: &Job<G, C>,
    a: A,
    b: B,
) -> Result<((A, WorkerEnd), (B, WorkerEnd)), (A, B)>
    ensures ends { IfOk result (λ worked. A.same a worked.0.0 × B.same b worked.1.0) }
    ensures ending_a { IfOk result (λ worked. IsEnding A.steps job_a.now.vat job_a.now.lines.now a worked.0.0 (A.down_by worked.0.0) worked.0.1) }
    ensures ending_b { IfOk result (λ worked. IsEnding B.steps job_b.now.vat job_b.now.lines.now b worked.1.0 (B.down_by worked.1.0) worked.1.1) }
    ensures unused { IfErr result (λ ends. (ends.0 ≡ a) × (ends.1 ≡ b)) }
{
    let go = AtomicBool::new(true);
    let told = &go;
    let start = Snapshot::of(&a);
    let promise = Given::of(&a, job_a);
    thread::scope(
        thread::scope_env(),
        rt,
        |scope| -> Result<((A, WorkerEnd), (B, WorkerEnd)), (A, B)>
            requires { (start.value ≡ a) × (promise.end.value ≡ a) × (promise.vat ≡ job_a.now.vat) × (promise.lines.value.now ≡ job_a.now.lines.now) }
            ensures ends { IfOk result (λ worked. A.same a worked.0.0 × B.same b worked.1.0) }
            ensures ending_a { IfOk result (λ worked. IsEnding A.steps job_a.entry.now.vat job_a.entry.now.lines.now a worked.0.0 (A.down_by worked.0.0) worked.0.1) }
            ensures ending_b { IfOk result (λ worked. IsEnding B.steps job_b.entry.now.vat job_b.entry.now.lines.now b worked.1.0 (B.down_by worked.1.0) worked.1.1) }
            ensures unused { IfErr result (λ ends. (ends.0 ≡ a) × (ends.1 ≡ b)) }
        {
            let started = scope.spawn_with(
                promise,
                move || -> (A, Option<WorkerEnd>)
                    ensures { IsBack A.steps A.same A.down_by job_a.entry.now.vat job_a.entry.now.lines.now a result.0 result.1 }
                { once_told(told, rt, job_a, a) },
            );
            match started {
                Ok(handle) => {
                    let worked_b = work(rt, job_b, b);
                    let (a, why) = handle.join(rt);
                    return Ok((work_late(rt, job_a, start, a, why), worked_b));
                }
                Err(refused) => {
                    told.store(false, Ordering::SeqCst);
                    let (a, why) = (refused.value)();
                    let Some(why) = why else {
                        return Err((a, b));
                    };
                    let worked_b = work(rt, job_b, b);
                    return Ok(((a, why), worked_b));
                }
            }
        },
    )
}

/// Works the end, unless it is told not to.
fn once_told<R: Wait, A: PairEnd, G: Gate, C: Clock>(
    told: &AtomicBool,
    rt: &R,
    job: &Job<G, C>,
    end: A,
) -> (A, Option<WorkerEnd>)
    ensures { IsBack A.steps A.same A.down_by job.now.vat job.now.lines.now end result.0 result.1 }
{
    if !told.load(Ordering::SeqCst) {
        return (end, None);
    }
    let (end, why) = work(rt, job, end);
    (end, Some(why))
}

/// Works an end that was not.
fn work_late<R: Wait, A: PairEnd, G: Gate, C: Clock>(
    rt: &R,
    job: &Job<G, C>,
    start: Snapshot<A>,
    end: A,
    why: Option<WorkerEnd>,
) -> (A, WorkerEnd)
    requires { IsBack A.steps A.same A.down_by job.now.vat job.now.lines.now start.value end why }
    ensures end { A.same start.value result.0 }
    ensures ending { IsEnding A.steps job.now.vat job.now.lines.now start.value result.0 (A.down_by result.0) result.1 }
{
    // Only the contract speaks of it, and the compiler counts it as unused.
    let _ = start;
    match why {
        Some(why) => (end, why),
        None => work(rt, job, end),
    }
}
