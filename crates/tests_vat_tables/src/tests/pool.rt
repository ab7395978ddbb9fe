//! The pool of waiting calls: lists that are filled, emptied and put together.
use std::process::Abort;
use vat_tables::{HeldPool, ListKey, POOL_LIMIT, TableFault};

// If a growth is refused, the call has to come back and the pool to be as it was.
fn starts(pool: &mut HeldPool<usize>, call: usize) -> Option<ListKey> {
    let before = pool.len();
    match pool.start(call) {
        Ok(list) => Some(list),
        Err(refused) if refused == (TableFault::Memory, call) && pool.len() == before => {
            pool.start(call).ok()
        }
        Err(_) => None,
    }
}

// As `starts`.
fn pushes(pool: &mut HeldPool<usize>, list: ListKey, call: usize) -> bool {
    let before = pool.len();
    if !pool.contains(list) {
        return false;
    }
    match pool.push(list, call) {
        Ok(()) => true,
        Err(refused) => {
            refused == (TableFault::Memory, call)
                && pool.len() == before
                && pool.contains(list)
                && pool.push(list, call).is_ok()
        }
    }
}

fn pops(pool: &mut HeldPool<usize>, list: ListKey, wanted: Option<(usize, bool)>) -> bool {
    pool.pop(list) == wanted
}

fn appends(pool: &mut HeldPool<usize>, to: ListKey, from: ListKey) -> bool {
    if to.0 == from.0 || !pool.contains(to) || !pool.contains(from) {
        return false;
    }
    pool.append(to, from);
    !pool.contains(from)
}

// Fills the pool with the numbers below its limit, on three lists in turn.
fn fill(pool: &mut HeldPool<usize>) -> Option<[ListKey; 3]> {
    let lists = [starts(pool, 0)?, starts(pool, 1)?, starts(pool, 2)?];
    for i in 3..POOL_LIMIT {
        if !pushes(pool, lists[i % 3], i) {
            return None;
        }
    }
    Some(lists)
}

fn is_full(pool: &HeldPool<usize>) -> bool {
    pool.len() == POOL_LIMIT
        && pool.is_full()
        && has(pool, POOL_LIMIT - 1)
        && !has(pool, POOL_LIMIT)
}

fn has(pool: &HeldPool<usize>, wanted: usize) -> bool {
    pool.any(|call| *call == wanted)
}

fn is_emptied_in_order(pool: &mut HeldPool<usize>, lists: [ListKey; 3]) -> bool {
    for i in 0..POOL_LIMIT {
        if !pops(pool, lists[i % 3], Some((i, i + 3 < POOL_LIMIT))) {
            return false;
        }
    }
    pool.len() == 0
}

/// A full pool is popped in order, twice.
#[test]
fn waiting_calls_are_popped_in_order(rt: HostRuntime) {
    let mut pool = HeldPool::new(rt.alloc());
    assert!(rt; pool.reserve(1).is_ok());
    for _ in 0..2 {
        let Some(lists) = fill(&mut pool) else {
            panic!(rt; "refused");
        };
        assert!(rt; is_full(&pool));
        assert!(rt; is_emptied_in_order(&mut pool, lists));
    }
}

/// A list is put behind another.
#[test]
fn two_lists_are_one(rt: HostRuntime) {
    let mut pool = HeldPool::new(rt.alloc());
    are_one(&rt, &mut pool);
}

fn are_one(rt: &impl Abort, pool: &mut HeldPool<usize>) {
    let (Some(to), Some(from)) = (starts(pool, 1), starts(pool, 3)) else {
        panic!(rt; "refused");
    };
    assert!(rt; pushes(pool, to, 2));
    assert!(rt; appends(pool, to, from));
    for wanted in [Some((1, true)), Some((2, true)), Some((3, false)), None] {
        assert!(rt; pops(pool, to, wanted));
    }
}

// To be run with each of the first allocations refused, by `rt try --test --fail-alloc N`.
#[test]
fn a_refused_call_comes_back(rt: HostRuntime) {
    let mut pool = HeldPool::new(rt.alloc());
    comes_back(&rt, &mut pool);
}

fn comes_back(rt: &impl Abort, pool: &mut HeldPool<usize>) {
    let Some(list) = starts(pool, 0) else {
        panic!(rt; "refused");
    };
    for call in 1..40 {
        assert!(rt; pushes(pool, list, call));
    }
    for call in 0..40 {
        assert!(rt; pops(pool, list, Some((call, call < 39))));
    }
}
