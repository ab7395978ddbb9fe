//! The merge of two logs into one.

ghost use Rattle.std.specs.Prelude.{◌≡◌, ℕ, ◌<◌, ◌≤◌, Option, IfOk, true, false, drop, length, ◌⊎◌};
ghost use Rattle.laws_merge.specs.Merge.{merge, ready, takes_first};

use std::alloc::{AllocError, Global};

/// An entry of one of two logs.
#[derive(Drop)]
pub enum OneOf<P, Q> {
    First(P),
    Second(Q),
}

/// An entry of a log, as the merge sees it.
pub trait Logged: Drop {
    ghost waits: { Self → Option ℕ };

    ghost makes: { Self → ℕ };

    /// The number of the frame that it received, if it received one.
    fn waits(&self) -> Option<u64>
        ensures { result ≡ waits self.now };

    /// How many frames it made.
    fn makes(&self) -> u64
        ensures { result ≡ makes self.now };

    /// A copy that equals it. `AllocError` if a growth was refused.
    fn copy(&self, alloc: Global) -> Result<Self, AllocError>
        ensures { IfOk result (λ copy. copy ≡ self.now) };
}

/// Whether an entry can come once the other side has made this many frames.
fn is_ready<P: Logged>(entry: &P, made: u128) -> bool
    ensures { result ≡ ready (P.waits entry.now) made }
{
    match entry.waits() {
        None => true,
        Some(seq) => (seq as u128) < made,
    }
}

/// Whether the merge goes on with the first log; `i` and `j` entries of the two are taken.
fn first_is_next<P: Logged, Q>(first: &[P], second: &[Q], i: usize, j: usize, made: u128) -> bool
    requires in_first { i ≤ length first.now }
    requires in_second { j ≤ length second.now }
    ensures answer { result ≡ takes_first P.waits made (drop i first.now) (drop j second.now) }
    ensures yes { result ≡ true → i < length first.now }
    ensures no { result ≡ false → (i ≡ length first.now) ⊎ (j < length second.now) }
{
    if i == first.len() {
        return false;
    }
    if j == second.len() {
        return true;
    }
    is_ready(&first[i], made)
}

/// Copies of all entries of both logs, each log's in order: the next of the first log if it received no frame, or
/// one that the second has made by then; else the next of the second.
///
/// `AllocError` if a growth was refused; nothing is left of the merge then, and the logs are as they were.
pub fn merge_logs<P: Logged, Q: Logged>(
    alloc: Global,
    first: &[P],
    second: &[Q],
) -> Result<Vec<OneOf<P, Q>>, AllocError>
    ensures order { IfOk result (λ entries. entries.items ≡ merge P.waits Q.makes 0 first.now second.now) }
{
    let mut entries = Vec::new(alloc);
    let mut i = 0;
    let mut j = 0;
    // wide enough that no sum of counts can pass it
    let mut made: u128 = 0;
    while i < first.len() || j < second.len() {
        if first_is_next(first, second, i, j, made) {
            entries.push(OneOf::First(first[i].copy(alloc)?))?;
            i += 1;
        } else {
            entries.push(OneOf::Second(second[j].copy(alloc)?))?;
            made += second[j].makes() as u128;
            j += 1;
        }
    }
    Ok(entries)
}
