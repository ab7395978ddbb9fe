//! Why calls keep their order over chains of promises between two vats.
//!
//! A law about a machine of its own, the machine of routes (`specs/`): it has no code to run. It says nothing of
//! ids, tables or lifetimes: in the machine nothing is collected and no name is used twice. `docs/order.md` tells
//! the argument in plain words. A crate that shows that a vat pair does only what this machine may do carries the
//! invariant of `keeps_order` beside the pair.
//!
//! `laws.rt` has the laws. `example.rt` uses them at nodes with a structure (`places.rt`), and works runs of the machine.
#![tactic(auto)]

mod example;
mod laws;
mod places;

pub use example::{carried, structured, worked};
pub use laws::{in_order, keeps_order, moves_keep_order};
pub use places::{Group, Node, Reference};
