//! The frames of a first call, and one end alone.
use crate::tests::acts::FIRST;
use crate::tests::pair::{see, see_alone};
use rpc_msg::Memory;

// Bootstrap and Call; then, after both Returns, two Finishes and a Release.
const OF_A: &[(u64, u64)] = &[(0, 0), (1, 0), (2, 2), (3, 2), (4, 2)];

// A Return after the first frame, and one after both.
const OF_B: &[(u64, u64)] = &[(0, 1), (1, 2)];

#[test]
fn frames_of_a_first_call_have_their_numbers(rt: HostRuntime) -> Result<(), Memory> {
    let seen = see(&rt, rt.alloc(), 16, FIRST, &[], [OF_A, OF_B])?;
    assert!(rt; seen.is_done && seen.are_numbered && seen.delivered == Some(1));
    Ok(())
}

// Seven commands and two turns; each wrote what its note says.
#[test]
fn an_end_alone_has_its_log_and_its_journal(rt: HostRuntime) -> Result<(), Memory> {
    let seen = see_alone(&rt, rt.alloc(), 16, FIRST)?;
    assert!(rt; seen.is_done && seen.logged == 9 && seen.noted == seen.written);
    Ok(())
}
