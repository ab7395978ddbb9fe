//! A small user of the laws: the theorem at nodes with a structure, and worked runs of the machine.
//!
//! The types of `places.rt` stand for what a vat pair has, and no code makes a value of them: they say what nodes, groups and
//! references are.

ghost use Rattle.laws_order.specs.Laws.{AlwaysInOrder};
ghost use Rattle.laws_order.specs.Carried.{CarriedOverAStep};
ghost use Rattle.laws_order.specs.Places.{places};
ghost use Rattle.laws_order.specs.Runs.{
  EmbargoRun,
  LinkTwiceRun,
  OvertakenOnARound,
  BehindTheDisembargoOnARound,
};

use crate::laws::{in_order, keeps_order};
use crate::places::{Group, Node, Reference};

/// Over these nodes, groups and references the calls of each reference are in order.
pub fn structured()
    ensures { AlwaysInOrder places }
{
    in_order::<Node, Group, Reference>();
}

/// A crate beside the machine carries the invariant over each step, and has the order of calls after it.
pub fn carried()
    ensures { CarriedOverAStep }
{
    keeps_order::<Node, Group, Reference>();
}

/// Runs of the machine, by computation: an embargo; a route that passes one link twice, whose head stays under its
/// embargo; and two that go round. On these calls of one reference overtake one another, so order is claimed of good
/// routes alone.
pub fn worked()
    ensures embargo { EmbargoRun }
    ensures link_twice { LinkTwiceRun }
    ensures overtaken { OvertakenOnARound }
    ensures behind { BehindTheDisembargoOnARound }
{}
