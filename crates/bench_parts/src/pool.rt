//! How long a waiting call takes.

ghost use Rattle.std.specs.Prelude.{ℕ, ◌≡◌, IsSome, IfOk};
ghost use Rattle.std.specs.FinMap as map;
ghost use Rattle.bench_parts.specs.Turns.{IsOneOf, AreThere};

use anyhow::{Result, bail};
use std::rt::Clock;
use std::time::Instant;
use vat_tables::{HeldPool, ListKey, TableFault};

/// How many calls are pushed and taken out in all, at least.
const CALLS: u32 = 4_000_000;

/// What pushing and taking out took, in nanoseconds.
#[derive(Clone, Copy, Drop)]
struct Times {
    push: u128,
    pop: u128,
}

impl Times {
    fn plus(self, other: Times) -> Times {
        Times {
            push: self.push.saturating_add(other.push),
            pop: self.pop.saturating_add(other.pop),
        }
    }
}

/// Three lists of waiting calls.
#[derive(Clone, Copy, Drop)]
struct Lists {
    first: ListKey,
    second: ListKey,
    third: ListKey,
}

impl Lists {
    /// The list whose turn it is for a call of that number.
    fn turn(self, call: u32) -> ListKey
        ensures { IsOneOf self result }
    {
        match call % 3 {
            0 => self.first,
            1 => self.second,
            _ => self.third,
        }
    }
}

/// Starts a list with one call.
fn start(pool: &mut HeldPool<u64>, call: u64) -> Result<ListKey, TableFault>
    ensures there { IfOk result (λ key. IsSome (map.get pool.new.lists key.0)) }
    ensures others { (k : ℕ) → IsSome (map.get pool.old.lists k) → IsSome (map.get pool.new.lists k) }
{
    match pool.start(call) {
        Ok(key) => return Ok(key),
        Err((fault, _)) => return Err(fault),
    }
}

fn push(pool: &mut HeldPool<u64>, key: ListKey, call: u64) -> Result<(), TableFault>
    requires { IsSome (map.get pool.old.lists key.0) }
    ensures { (k : ℕ) → IsSome (map.get pool.old.lists k) → IsSome (map.get pool.new.lists k) }
{
    match pool.push(key, call) {
        Ok(()) => return Ok(()),
        Err((fault, _)) => return Err(fault),
    }
}

fn start_lists(pool: &mut HeldPool<u64>) -> Result<Lists, TableFault>
    ensures { IfOk result (λ lists. AreThere lists pool.new.lists) }
{
    let first = start(pool, 0)?;
    let second = start(pool, 1)?;
    let third = start(pool, 2)?;
    Ok(Lists {
        first,
        second,
        third,
    })
}

/// Pushes calls to three lists in turn, so many in all, three at least.
fn fill(pool: &mut HeldPool<u64>, count: u32) -> Result<Lists, TableFault> {
    let lists = start_lists(pool)?;
    for call in 3..count {
        push(pool, lists.turn(call), u64::from(call))?;
    }
    Ok(lists)
}

/// Takes calls out of three lists in turn, and says how many there were, up to so many.
fn drain(pool: &mut HeldPool<u64>, lists: Lists, count: u32) -> u32 {
    for taken in 0..count {
        if pool.pop(lists.turn(taken)).is_none() {
            return taken;
        }
    }
    count
}

/// Fills an empty pool and drains it.
fn round(rt: &impl Clock, pool: &mut HeldPool<u64>, count: u32) -> Result<Times> {
    let start = Instant::now(rt)?;
    let lists = fill(pool, count)?;
    let push = start.elapsed(rt)?.as_nanos();
    let start = Instant::now(rt)?;
    let taken = drain(pool, lists, count);
    let pop = start.elapsed(rt)?.as_nanos();
    if taken != count {
        bail!("calls were lost");
    }
    Ok(Times { push, pop })
}

/// Tenths of a nanosecond for each of so many calls.
fn tenths(nanos: u128, calls: u128) -> u128 {
    nanos.saturating_mul(10) / calls.max(1)
}

/// Prints how long a call takes in a pool of so many.
pub fn measure(rt: &(impl AllocGlobal + Clock + Print), count: u32) -> Result<()> {
    if count < 3 {
        bail!("a call for each list at least");
    }
    let rounds = CALLS / count + 1;
    let mut pool = HeldPool::new(rt.alloc());
    let mut times = Times { push: 0, pop: 0 };
    for _ in 0..rounds {
        times = times.plus(round(rt, &mut pool, count)?);
    }
    let calls = u128::from(count) * u128::from(rounds);
    let push = tenths(times.push, calls);
    let pop = tenths(times.pop, calls);
    let (push_ns, push_rest) = (push / 10, push % 10);
    let (pop_ns, pop_rest) = (pop / 10, pop % 10);
    println!(rt;
        "{count} calls in three lists: push {push_ns}.{push_rest} ns, pop {pop_ns}.{pop_rest} ns a call"
    )?;
    Ok(())
}
