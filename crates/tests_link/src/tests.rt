//! What no clause says. Of the merge: the one order of two logs. Of rings: what stands in frames and logs, that frames come
//! through rings of one place, and what becomes of ends if memory is refused. Of workers: in which order lines and turns are
//! played, how the work of a vat ends, and what the gate is asked.
mod endings;
mod ends;
mod gates;
mod merge;
mod need;
mod replay;
mod script;
mod seats;
mod toy;

ghost use Rattle.std.specs.Prelude.{◌≡◌, None, IfOk};
ghost use Rattle.link_rings.specs.Ends.{AreLinked, IsSameEnd};

use crate::adder::{Adder, Note};
use link_rings::{End, Turn, link};
use std::alloc::{AllocError, Global};

type AdderEnd = End<Adder, Note, u64>;

fn adder() -> Adder
    ensures { result.down ≡ None }
{
    Adder {
        total: 0,
        down: None,
    }
}

/// The two ends of a new link of adders.
fn linked(alloc: Global, capacity: usize) -> Result<(AdderEnd, AdderEnd), AllocError>
    ensures { IfOk result (λ ends. AreLinked ends.0 ends.1) }
{
    match link(alloc, adder(), adder(), capacity) {
        Ok(ends) => Ok(ends),
        Err(_) => Err(AllocError),
    }
}

/// What a turn takes, if it finds a frame.
fn take(end: &mut AdderEnd) -> Option<u64>
    ensures { IsSameEnd end.old end.new }
{
    match end.turn() {
        Turn::Handled(number) => Some(number),
        _ => None,
    }
}
