//! What the gate is asked, and that two threads are at work.
use crate::tests::script::{Case, play};
use link_workers::{Gate, WorkerEnd};
use rpc_msg::{Stamp, Vat};
use std::alloc::AllocError;
use std::sync::atomic::{AtomicBool, AtomicU64, Ordering};
use std::thread;
use std::time::{Clock, Duration};

/// At B it waits, before B answers, until A has answered; one thread that worked both ends would not get past it.
#[derive(Drop)]
struct Waiting<'s, C> {
    clock: &'s C,
    answered_at_a: AtomicBool,
}

impl<'s, C: Clock + Sync> Gate for Waiting<'s, C> {
    fn before_answer(&self, vat: Vat, _stamp: Stamp) -> bool {
        if vat == Vat::A {
            return true;
        }
        for _ in 0..10_000 {
            if self.answered_at_a.load(Ordering::SeqCst) {
                return true;
            }
            thread::sleep(self.clock, Duration::from_millis(1));
        }
        false
    }

    fn after_answer(&self, vat: Vat, _stamp: Stamp) {
        if vat == Vat::A {
            self.answered_at_a.store(true, Ordering::SeqCst);
        }
    }
}

const BOTH_CALL: Case = Case {
    script: "a bootstrap x\nb bootstrap y\n",
    max_turns: 100_000,
    ends: (WorkerEnd::Done, WorkerEnd::Done),
    begun: (&[], &[]),
};

#[test]
fn one_vat_answers_while_the_other_waits(rt: HostRuntime) -> Result<(), AllocError> {
    for capacity in [1, 16] {
        let gate = Waiting {
            clock: &rt,
            answered_at_a: AtomicBool::new(false),
        };
        let played = play(&rt, &rt, rt.alloc(), capacity, &gate, &BOTH_CALL)?;
        assert!(rt; played.ends == BOTH_CALL.ends && played.as_begun);
    }
    Ok(())
}

/// Says no to the call of that number, and counts how often it is asked and told.
#[derive(Drop)]
struct Counting {
    refused: u64,
    asked: AtomicU64,
    told: AtomicU64,
}

impl Gate for Counting {
    fn before_answer(&self, _vat: Vat, stamp: Stamp) -> bool {
        let _before = self.asked.fetch_add(1, Ordering::SeqCst);
        stamp.index != self.refused
    }

    fn after_answer(&self, _vat: Vat, _stamp: Stamp) {
        let _before = self.told.fetch_add(1, Ordering::SeqCst);
    }
}

/// The third task is refused, whether a line answers it or not.
const REFUSED: &[Case] = &[
    Case {
        script: "a bootstrap x\na bootstrap y\na bootstrap z\n",
        max_turns: 10_000,
        ends: (WorkerEnd::Stopped, WorkerEnd::GateNo),
        begun: (&[], &[]),
    },
    Case {
        script: "a bootstrap x\na bootstrap y\na bootstrap z\nb turn\nb turn\nb turn\nb answer 1 -\nb fail 0\nb answer 2 -\n",
        max_turns: 10_000,
        ends: (WorkerEnd::Stopped, WorkerEnd::GateNo),
        begun: (&[], &[]),
    },
];

#[test]
fn a_gate_ends_the_run(rt: HostRuntime) -> Result<(), AllocError> {
    for case in REFUSED {
        let gate = Counting {
            refused: 2,
            asked: AtomicU64::new(0),
            told: AtomicU64::new(0),
        };
        let played = play(&rt, &rt, rt.alloc(), 16, &gate, case)?;
        assert!(rt; played.ends == case.ends && played.as_begun && played.did_b == 5);
        assert!(rt; gate.asked.into_inner() == 3 && gate.told.into_inner() == 2);
    }
    Ok(())
}
