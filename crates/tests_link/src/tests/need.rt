//! Out of memory: to be run with each allocation refused (`scripts/refused`).
ghost use Rattle.std.specs.Prelude.{IfOk};
ghost use Rattle.link_rings.specs.Ends.{AreLinked, IsSameEnd};

use crate::adder::{Did, Note};
use crate::tests::replay::is_in_order;
use crate::tests::{AdderEnd, adder};
use link_rings::{Entry, Gathered, LinkFault, Turn, link};
use std::alloc::{AllocError, Global};
use std::process::Abort;

/// If memory is refused both sides come back, and can be linked the second time.
fn linked_again(rt: &impl Abort, alloc: Global) -> Result<(AdderEnd, AdderEnd), AllocError>
    ensures { IfOk result (λ ends. AreLinked ends.0 ends.1) }
{
    match link(alloc, adder(), adder(), 3) {
        Ok(ends) => Ok(ends),
        Err((fault, a, b)) => {
            assert!(rt; fault == LinkFault::Memory);
            match link(alloc, a, b, 3) {
                Ok(ends) => Ok(ends),
                Err(_) => Err(AllocError),
            }
        }
    }
}

fn ends_shut(log: &[Entry<Note>]) -> bool {
    matches!(log.last(), Some(entry) if matches!(entry.note.did, Did::Shut(33)))
}

fn ends_taken(log: &[Entry<Note>]) -> bool {
    matches!(log.last(), Some(entry) if matches!(entry.note.did, Did::Took(_)))
}

/// A command for which memory is refused is a shut, and the only one.
fn says(end: &mut AdderEnd, number: u64) -> bool
    ensures { IsSameEnd end.old end.new }
{
    let before = end.log().len();
    let was_up = end.side().down.is_none();
    let is_said = end.command(number);
    let more = end.log().len().wrapping_sub(before);
    if is_said {
        was_up && more == 1
    } else {
        let is_shut = ends_shut(end.log());
        end.side().down == Some(33) && more == usize::from(was_up) && (is_shut || !was_up)
    }
}

/// A frame for which memory is refused is logged, and takes the side down.
fn turns(end: &mut AdderEnd) -> bool
    ensures { IsSameEnd end.old end.new }
{
    let before = end.log().len();
    let was_up = end.side().down.is_none();
    let turn = end.turn();
    let more = end.log().len().wrapping_sub(before);
    match turn {
        Turn::Idle => more == 0,
        Turn::Handled(_) => more == 1,
        Turn::Down(number) => {
            let is_taken = ends_taken(end.log());
            number == 33 && more == usize::from(was_up) && (is_taken || !was_up)
        }
    }
}

fn play(a: &mut AdderEnd, b: &mut AdderEnd) -> bool
    ensures a { IsSameEnd a.old a.new }
    ensures b { IsSameEnd b.old b.new }
{
    let mut is_so = true;
    for number in 0..8 {
        is_so = says(a, number) && is_so;
        is_so = says(b, number) && is_so;
        a.flush();
        b.flush();
        is_so = turns(a) && is_so;
        is_so = turns(b) && is_so;
    }
    is_so
}

#[test]
fn a_refused_allocation_shuts(rt: HostRuntime) -> Result<(), AllocError> {
    let (mut a, mut b) = linked_again(&rt, rt.alloc())?;
    assert!(rt; play(&mut a, &mut b));
    let gathered = Gathered::of(a, b);
    let in_order = match is_in_order(rt.alloc(), &gathered) {
        Err(AllocError) => is_in_order(rt.alloc(), &gathered),
        in_order => in_order,
    };
    assert!(rt; in_order == Ok(true));
    Ok(())
}
