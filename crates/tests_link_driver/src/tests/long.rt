//! Conversations through rings of any size, gathered at the end and after each act.
use crate::tests::acts::{BROKEN, ENDS, LONG};
use crate::tests::cores::cores;
use crate::tests::pair::{DELIVERED, see, see_alone};
use link_driver::{LinkFault, link};
use rpc_msg::Memory;
use std::alloc::Global;

#[test]
fn a_long_conversation_keeps_its_order(rt: HostRuntime) -> Result<(), Memory> {
    for capacity in [1, 16] {
        let seen = see(&rt, rt.alloc(), capacity, LONG, ENDS, [&[], &[]])?;
        assert!(rt; seen.is_done && seen.is_without);
        assert!(rt; seen.delivered == Some(DELIVERED.len()));
    }
    Ok(())
}

#[test]
fn what_was_delivered_so_far_is_a_beginning(rt: HostRuntime) -> Result<(), Memory> {
    for count in 0..LONG.len() {
        let Some(acts) = LONG.get(0..count) else {
            return Err(Memory);
        };
        let seen = see(&rt, rt.alloc(), 1, acts, &[], [&[], &[]])?;
        assert!(rt; seen.is_done && seen.delivered.is_some(), "after {count}");
    }
    Ok(())
}

/// Of one end alone, those that were delivered at it: all but the first.
#[test]
fn what_an_end_alone_delivered_is_a_beginning(rt: HostRuntime) -> Result<(), Memory> {
    for count in 0..LONG.len() {
        let Some(acts) = LONG.get(0..count) else {
            return Err(Memory);
        };
        let seen = see_alone(&rt, rt.alloc(), 1, acts)?;
        assert!(rt; seen.is_done && seen.delivered.is_some(), "after {count}");
    }
    Ok(())
}

#[test]
fn what_fails_ends_and_a_shut_vat_is_down(rt: HostRuntime) -> Result<(), Memory> {
    let seen = see(&rt, rt.alloc(), 2, BROKEN, &[], [&[], &[]])?;
    assert!(rt; seen.is_done && seen.is_shut && seen.downs == [Some(50), None]);
    Ok(())
}

/// Whether no link has rings of that many places, and both cores come back.
fn is_no_ring(alloc: Global, capacity: usize) -> Result<bool, Memory> {
    let (a, b) = cores(alloc)?;
    match link(alloc, a, b, capacity) {
        Ok(_) => Ok(false),
        Err((fault, a, b)) => Ok(fault == LinkFault::BadCapacity && a.is_new() && b.is_new()),
    }
}

#[test]
fn a_ring_has_from_1_to_65_536_places(rt: HostRuntime) -> Result<(), Memory> {
    for capacity in [0, 65_537] {
        assert!(rt; is_no_ring(rt.alloc(), capacity)?);
    }
    Ok(())
}
