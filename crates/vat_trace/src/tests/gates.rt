//! That two threads are at work, and that a gate ends the run.
use crate::tests::worked::work;
use crate::trace::trace_of_gathered;
use link_workers::{Gate, WorkerEnd};
use rpc_check::Verdict;
use rpc_msg::{Memory, Stamp, Vat};
use std::sync::atomic::{AtomicBool, Ordering};
use std::thread;
use std::time::{Clock, Duration};

/// Each vat bootstraps, takes the field and makes one call.
const BOTH_CALL: &str =
    "a bootstrap boot\na field obj boot -\na call one obj 7 1 -\nb bootstrap boot\nb field obj boot -\nb call two obj 7 2 -\n";

/// At B it waits, before B answers, until A has answered; one thread that worked both ends would not get past it.
#[derive(Drop)]
struct Waiting<'s, C> {
    clock: &'s C,
    answered_at_a: AtomicBool,
}

impl<'s, C: Clock + Sync> Gate for Waiting<'s, C> {
    fn before_answer(&self, vat: Vat, _stamp: Stamp) -> bool {
        if vat == Vat::A {
            return true;
        }
        for _ in 0..10_000 {
            if self.answered_at_a.load(Ordering::SeqCst) {
                return true;
            }
            thread::sleep(self.clock, Duration::from_millis(1));
        }
        false
    }

    fn after_answer(&self, vat: Vat, _stamp: Stamp) {
        if vat == Vat::A {
            self.answered_at_a.store(true, Ordering::SeqCst);
        }
    }
}

#[test]
fn one_vat_answers_while_the_other_waits(rt: HostRuntime) -> Result<(), Memory> {
    for capacity in [1, 16] {
        let gate = Waiting {
            clock: &rt,
            answered_at_a: AtomicBool::new(false),
        };
        let run = work(&rt, rt.alloc(), BOTH_CALL, &gate, (capacity, 100_000))?;
        assert!(rt; run.a == WorkerEnd::Done && run.b == WorkerEnd::Done);
        let trace = trace_of_gathered(rt.alloc(), &run.gathered)?;
        assert!(rt; trace.verdict == Verdict::Good(2));
    }
    Ok(())
}

/// Lets nothing be answered.
#[derive(Drop)]
struct Shut;

impl Gate for Shut {
    fn before_answer(&self, _vat: Vat, _stamp: Stamp) -> bool {
        false
    }

    fn after_answer(&self, _vat: Vat, _stamp: Stamp) {}
}

#[test]
fn a_gate_ends_the_run(rt: HostRuntime) -> Result<(), Memory> {
    let script = "a bootstrap boot\na field obj boot -\na call one obj 7 1 -\n";
    let run = work(&rt, rt.alloc(), script, &Shut, (16, 10_000))?;
    assert!(rt; run.a == WorkerEnd::Stopped && run.b == WorkerEnd::GateNo);
    let trace = trace_of_gathered(rt.alloc(), &run.gathered)?;
    assert!(rt; trace.verdict == Verdict::Good(1));
    assert!(rt; !trace.text.contains("\"k\":\"answered\""));
    Ok(())
}
