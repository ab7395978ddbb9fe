//! Two ends that one thread works in turn.
ghost use Rattle.link_rings.specs.Ends.{IsSameEnd};

use crate::adder::{Did, Note};
use crate::tests::replay::is_in_order;
use crate::tests::{AdderEnd, adder, linked, take};
use link_rings::{Entry, Gathered, LinkFault, link};
use std::alloc::{AllocError, Global};

fn is_no_ring(alloc: Global, capacity: usize) -> bool {
    match link(alloc, adder(), adder(), capacity) {
        Ok(_) => false,
        Err((fault, _, _)) => fault == LinkFault::BadCapacity || fault == LinkFault::Memory,
    }
}

#[test]
fn rings_have_from_one_to_65_536_places(rt: HostRuntime) {
    for capacity in [0, 65537] {
        assert!(rt; is_no_ring(rt.alloc(), capacity), "{capacity}");
    }
}

/// What is done at two ends, and what it gives: a number said, how many frames are pushed, a number that is taken.
#[derive(Clone, Copy)]
enum Act {
    Say(u64),
    FlushA(usize),
    FlushB(usize),
    TakeA(Option<u64>),
    TakeB(Option<u64>),
}

/// Two numbers through a ring of one place, and the first one's echo.
const THROUGH_ONE_PLACE: &[Act] = &[
    Act::Say(5),
    Act::Say(6),
    Act::FlushA(1),
    Act::FlushA(0),
    Act::TakeB(Some(5)),
    Act::TakeB(None),
    Act::FlushA(1),
    Act::TakeB(Some(6)),
    Act::FlushB(1),
    Act::TakeA(Some(5)),
];

/// Of each frame that B took: its numbers, what its entry made before and had received, and what it says.
const TAKEN: &[(u64, u64, u64, u64, u64)] = &[(0, 0, 0, 1, 5), (1, 0, 1, 2, 6)];

/// Whether it gives what it is to give.
fn acts(a: &mut AdderEnd, b: &mut AdderEnd, act: Act) -> bool {
    match act {
        Act::Say(number) => a.command(number),
        Act::FlushA(pushed) => a.flush() == pushed,
        Act::FlushB(pushed) => b.flush() == pushed,
        Act::TakeA(taken) => take(a) == taken,
        Act::TakeB(taken) => take(b) == taken,
    }
}

/// Whether these are all of which each entry says that a frame was taken.
fn has_taken(log: &[Entry<Note>], wanted: &[(u64, u64, u64, u64, u64)]) -> bool {
    let mut wanted = wanted.iter();
    for entry in log {
        if let Did::Took(number) = entry.note.did {
            let taken = (entry.seq, entry.ack, entry.first, entry.heard, number);
            if wanted.next().copied() != Some(taken) {
                return false;
            }
        }
    }
    wanted.next().is_none()
}

fn plays(a: &mut AdderEnd, b: &mut AdderEnd) -> bool {
    for act in THROUGH_ONE_PLACE {
        if !acts(a, b, *act) {
            return false;
        }
    }
    b.recycle(6);
    a.side().total == 5 && b.side().total == 11
}

fn come_through(alloc: Global) -> Result<bool, AllocError> {
    let (mut a, mut b) = linked(alloc, 1)?;
    let plays = plays(&mut a, &mut b);
    let (_, log) = b.into_log();
    Ok(plays && has_taken(&log, TAKEN))
}

#[test]
fn frames_come_through_one_place(rt: HostRuntime) -> Result<(), AllocError> {
    assert!(rt; come_through(rt.alloc())?);
    Ok(())
}

/// Steps of a fixed order, some of which find nothing to do: whether what is said is not refused.
fn work(a: &mut AdderEnd, b: &mut AdderEnd, step: u64) -> bool
    ensures a { IsSameEnd a.old a.new }
    ensures b { IsSameEnd b.old b.new }
{
    match step % 7 {
        0 => return a.command(step),
        1 => return b.command(step),
        2 => {
            a.flush();
        }
        4 => {
            b.flush();
        }
        5 => {
            take(a);
        }
        _ => {
            take(b);
        }
    }
    true
}

fn work_all(a: &mut AdderEnd, b: &mut AdderEnd, steps: u64) -> bool
    ensures a { IsSameEnd a.old a.new }
    ensures b { IsSameEnd b.old b.new }
{
    let mut is_done = true;
    for step in 0..steps {
        is_done = work(a, b, step) && is_done;
    }
    is_done && a.side().down.is_none() && b.side().down.is_none()
}

/// Whether two ends are in order after so many steps.
fn are_in_order(alloc: Global, steps: u64) -> Result<bool, AllocError> {
    let (mut a, mut b) = linked(alloc, 2)?;
    let is_done = work_all(&mut a, &mut b, steps);
    let gathered = Gathered::of(a, b);
    match is_in_order(alloc, &gathered) {
        Ok(in_order) => Ok(in_order && is_done),
        Err(AllocError) => Err(AllocError),
    }
}

#[test]
fn ends_are_gathered_after_any_step(rt: HostRuntime) -> Result<(), AllocError> {
    for steps in 0..60 {
        assert!(rt; are_in_order(rt.alloc(), steps)?, "after {steps} steps");
    }
    Ok(())
}
