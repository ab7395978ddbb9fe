//! How the work of a vat ends.
use crate::tests::script::{Case, play};
use link_workers::{OpenGate, WorkerEnd};
use script_language::NameFault;
use std::alloc::AllocError;

/// A script, how many turns may find no frame, and how the work of A and of B ends.
type Row = (&'static str, u32, WorkerEnd, WorkerEnd);

const MANY: u32 = 10_000;

const ROWS: &[Row] = &[
    // nothing to do
    ("", MANY, WorkerEnd::Done, WorkerEnd::Done),
    // calls both ways; a line answers a task, and another fails one
    (
        "a bootstrap x\nb bootstrap y\na turn\na answer 0 -\nb turn\nb fail 0\n",
        MANY,
        WorkerEnd::Done,
        WorkerEnd::Done,
    ),
    // a call that was finished has no outcome, and is over
    (
        "a bootstrap x\na finish x\n",
        MANY,
        WorkerEnd::Done,
        WorkerEnd::Done,
    ),
    // a task that is not there is refused, and the script goes on
    (
        "b answer 5 -\na bootstrap x\n",
        MANY,
        WorkerEnd::Done,
        WorkerEnd::Done,
    ),
    // a vat that goes down
    (
        "a host x 7\na bootstrap y\n",
        MANY,
        WorkerEnd::Down(7),
        WorkerEnd::Stopped,
    ),
    ("b host x 9\n", MANY, WorkerEnd::Stopped, WorkerEnd::Down(9)),
    // faults of lines, in either vat, and in both
    (
        "a bootstrap x\n\na call y z 0 0 -\n",
        MANY,
        WorkerEnd::ScriptFault(3, NameFault::Reference),
        WorkerEnd::Stopped,
    ),
    (
        "b finish x\n",
        MANY,
        WorkerEnd::Stopped,
        WorkerEnd::ScriptFault(1, NameFault::Call),
    ),
    (
        "a bootstrap x\nb take y 3 0\na got y x 0\n",
        MANY,
        WorkerEnd::ScriptFault(3, NameFault::Outcome),
        WorkerEnd::ScriptFault(2, NameFault::Task),
    ),
    // a frame that never comes, while the other has its own left to do
    ("a turn\nb turn\n", 3, WorkerEnd::Limit, WorkerEnd::Limit),
    ("a turn\n", 0, WorkerEnd::Limit, WorkerEnd::Limit),
];

/// Whether it ended as it was to, at one vat. If both wait in vain, the one that is later hears of the other, or has waited long
/// enough itself.
fn is_wanted(wanted: WorkerEnd, end: WorkerEnd) -> bool {
    end == wanted || (wanted == WorkerEnd::Limit && end == WorkerEnd::Stopped)
}

fn are_wanted(wanted: (WorkerEnd, WorkerEnd), ends: (WorkerEnd, WorkerEnd)) -> bool {
    is_wanted(wanted.0, ends.0) && is_wanted(wanted.1, ends.1)
}

#[test]
fn the_work_ends(rt: HostRuntime) -> Result<(), AllocError> {
    for (script, max_turns, a, b) in ROWS {
        let case = Case {
            script,
            max_turns: *max_turns,
            ends: (*a, *b),
            begun: (&[], &[]),
        };
        for capacity in [1, 16] {
            let played = play(&rt, &rt, rt.alloc(), capacity, &OpenGate, &case)?;
            assert!(rt;
                are_wanted(case.ends, played.ends) && played.as_begun,
                "{script}: {played:?}"
            );
        }
    }
    Ok(())
}
