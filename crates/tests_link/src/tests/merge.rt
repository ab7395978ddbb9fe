//! The order of two logs, and the theorems at a side of a test's own.
ghost use Rattle.std.specs.Prelude.{◌≡◌, ℕ, List, [], ◌∷◌, Option, Result, Ok, IfOk, ◌+◌};
ghost use Rattle.laws_merge.specs.Machine.{Input, Command, Shut, Receive, side};
ghost use Rattle.laws_merge.specs.Laws.{LogsInterleave, LogGrows};

use laws_merge::{Logged, OneOf, Steps, log_grows, logs_interleave, merge_logs};
use std::alloc::{AllocError, Global};

/// An entry with a name, to see the order of a merge.
#[derive(Clone, Copy, Drop)]
struct Line {
    name: u64,
    waits: Option<u64>,
    makes: u64,
}

impl Logged for Line {
    ghost waits = { λ line. line.waits };

    ghost makes = { λ line. line.makes };

    fn waits(&self) -> Option<u64> {
        self.waits
    }

    fn makes(&self) -> u64 {
        self.makes
    }

    fn copy(&self, alloc: Global) -> Result<Self, AllocError> {
        // A copy of it takes no memory, and the compiler counts it as unused.
        let _ = alloc;
        Ok(*self)
    }
}

/// A calls, receives B's own call, and then B's answer; B calls, and answers.
const OF_A: [Line; 3] = [
    Line {
        name: 10,
        waits: None,
        makes: 1,
    },
    Line {
        name: 11,
        waits: Some(0),
        makes: 0,
    },
    Line {
        name: 12,
        waits: Some(1),
        makes: 1,
    },
];

const OF_B: [Line; 2] = [
    Line {
        name: 20,
        waits: None,
        makes: 1,
    },
    Line {
        name: 21,
        waits: Some(0),
        makes: 1,
    },
];

const ORDER: [u64; 5] = [10, 20, 11, 21, 12];

fn are_named(order: &[OneOf<Line, Line>], names: &[u64]) -> bool {
    let mut names = names.iter();
    for entry in order {
        let name = match entry {
            OneOf::First(line) => line.name,
            OneOf::Second(line) => line.name,
        };
        if names.next().copied() != Some(name) {
            return false;
        }
    }
    names.next().is_none()
}

fn is_merged(alloc: Global) -> Result<bool, AllocError> {
    match merge_logs(alloc, &OF_A, &OF_B) {
        Ok(order) => Ok(are_named(&order, &ORDER)),
        Err(_) => Err(AllocError),
    }
}

/// If one allocation is refused both logs are as they were.
#[test]
fn two_calls_cross(rt: HostRuntime) -> Result<(), AllocError> {
    let is_merged = match is_merged(rt.alloc()) {
        Err(AllocError) => is_merged(rt.alloc())?,
        Ok(is_merged) => is_merged,
    };
    assert!(rt; is_merged);
    Ok(())
}

/// A side that counts what it receives, and sends its count.
struct Counting;

impl Steps for Counting {
    type State = u64;

    type Command = u64;

    type Note = bool;

    type In = u64;

    type Out = u64;

    ghost step = { λ old input note sends new. (new ≡ old + 1) × (sends ≡ new ∷ []) };
}

/// The theorems at a side with steps of its own.
fn counted()
    ensures interleave { LogsInterleave (side ⟦<Counting as Steps>⟧.step) (side ⟦<Counting as Steps>⟧.step) }
    ensures grows { LogGrows (side ⟦<Counting as Steps>⟧.step) }
{
    logs_interleave::<Counting, Counting>();
    log_grows::<Counting>();
}

#[test]
fn theorems_are_called(_rt: HostRuntime) {
    counted();
}
