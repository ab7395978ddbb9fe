//! Runs that end by the limit of turns, and with a vat down.
use crate::tests::worked::work;
use crate::trace::{trace_of_gathered, trace_of_pair};
use link_workers::{OpenGate, WorkerEnd};
use rpc_check::Verdict;
use rpc_msg::Memory;
use std::alloc::{AllocError, Global};

/// A frame that never comes: the one that is later hears of the other, or has waited long enough itself.
#[test]
fn a_run_ends_by_the_limit_of_turns(rt: HostRuntime) -> Result<(), Memory> {
    for capacity in [1, 16] {
        let run = work(
            &rt,
            rt.alloc(),
            "a turn\nb turn\n",
            &OpenGate,
            (capacity, 3),
        )?;
        assert!(rt; run.a == WorkerEnd::Limit || run.b == WorkerEnd::Limit);
        let trace = trace_of_gathered(rt.alloc(), &run.gathered)?;
        assert!(rt; trace.verdict == Verdict::Good(0));
    }
    Ok(())
}

/// As many exports as a vat may have, and one more for which the other vat asks: B hands on 4,096 objects, and A bootstraps.
fn too_many_exports(alloc: Global) -> Result<String, AllocError> {
    let mut script = String::new(alloc);
    let mut names = String::new(alloc);
    write!(
        script,
        "a bootstrap boot\nb bootstrap boot\nb field obj boot -\n"
    )?;
    for i in 1..4_096 {
        write!(script, "b host r{i} {i}\n")?;
        write!(names, "r{i},")?;
    }
    write!(
        script,
        "b host last 4096\nb call give obj 7 1 {names}last\n"
    )?;
    Ok(script)
}

/// Each vat resolves a promise to one of the other's, and calls through it. The calls go round until tables are full, in one
/// circle sooner than in the other. Which vat goes down depends on the threads.
fn round_two_circles(alloc: Global) -> Result<String, AllocError> {
    let mut script = String::new(alloc);
    write!(
        script,
        "a bootstrap boot\na field obj boot -\nb bootstrap boot\nb field obj boot -\n"
    )?;
    write!(
        script,
        "a promise p q\na call c obj 1 1 q\nb promise pb qb\nb call d obj 1 1 qb\n"
    )?;
    write!(script, "a turn\na turn\na turn\nb turn\nb turn\nb turn\n")?;
    write!(
        script,
        "a take u 0 0\nb take t 0 0\nb resolve pb t\na resolve p u\n"
    )?;
    for _ in 0..40 {
        write!(script, "a call e q 1 1 -\n")?;
    }
    write!(
        script,
        "b call f qb 1 1 -\nb call f qb 1 1 -\nb call f qb 1 1 -\n"
    )?;
    Ok(script)
}

/// A limit is not told as running out of memory, however the run ends.
#[test]
fn a_run_ends_by_limits_in_any_order(rt: HostRuntime) -> Result<(), AllocError> {
    let script = round_two_circles(rt.alloc())?;
    let Ok(trace) = trace_of_pair(rt.alloc(), &rt, &rt, script.as_bytes()) else {
        return Err(AllocError);
    };
    assert!(rt; matches!(trace.verdict, Verdict::Good(_)));
    assert!(rt; trace.text.contains("{\"fault\":33,\"k\":\"down\",\"vat\":"));
    Ok(())
}

/// The other vat is told, and goes down too; such a run is printed all the same.
#[test]
fn a_run_ends_with_a_vat_down(rt: HostRuntime) -> Result<(), AllocError> {
    let script = too_many_exports(rt.alloc())?;
    let Ok(trace) = trace_of_pair(rt.alloc(), &rt, &rt, script.as_bytes()) else {
        return Err(AllocError);
    };
    assert!(rt; matches!(trace.verdict, Verdict::Good(_)));
    assert!(rt;
        trace
            .text
            .contains("{\"fault\":33,\"k\":\"down\",\"vat\":\"b\"}\n")
    );
    assert!(rt;
        trace
            .text
            .contains("{\"fault\":34,\"k\":\"down\",\"vat\":\"a\"}\n")
    );
    Ok(())
}
