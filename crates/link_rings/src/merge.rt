ghost use Rattle.std.specs.Prelude.{◌≡◌, ◌<◌, ◌≤◌, ◌⊎◌, true, false, drop, length, OnOk};
ghost use Rattle.laws_merge.specs.Merge.{ready, takes_first};
ghost use Rattle.laws_merge.specs.declared.merge.OneOf.{OneOf};
ghost use Rattle.laws_merge.specs.declared.merge.OneOf.TheVariants.{First, Second};
ghost use Rattle.link_rings.specs.declared.entry.Entry.{Entry};
ghost use Rattle.link_rings.specs.Gather.{waits, order, ReadsAll};

use crate::entry::Entry;
use crate::party::Party;
use std::alloc::AllocError;

/// What is handed the entries of two logs, one after another.
pub trait Reads<N> {
    /// How an entry changes it.
    ghost reads: { Self → OneOf (Entry N) (Entry N) → Self → Type 0 };

    /// An entry of the first log. `AllocError` if a growth was refused.
    fn first(&mut self, entry: &Entry<N>) -> Result<(), AllocError>
        ensures { OnOk result (reads self.old (First entry.now) self.new) };

    /// An entry of the second log.
    fn second(&mut self, entry: &Entry<N>) -> Result<(), AllocError>
        ensures { OnOk result (reads self.old (Second entry.now) self.new) };
}

// Whether an entry can come once the other side has made this many frames.
fn is_ready<P: Party<N, M>, N, M>(entry: &Entry<N>, made: u128) -> bool
    ensures { result ≡ ready (waits P.input entry.now) made }
{
    if P::received(&entry.note) {
        return (entry.seq as u128) < made;
    }
    true
}

// Whether the merge goes on with the first log; `i` and `j` entries of the two are taken.
fn first_is_next<P: Party<N, M>, N, M>(
    first: &[Entry<N>],
    second: &[Entry<N>],
    i: usize,
    j: usize,
    made: u128,
) -> bool
    requires in_first { i ≤ length first.now }
    requires in_second { j ≤ length second.now }
    ensures answer { result ≡ takes_first (waits P.input) made (drop i first.now) (drop j second.now) }
    ensures yes { result ≡ true → i < length first.now }
    ensures no { result ≡ false → (i ≡ length first.now) ⊎ (j < length second.now) }
{
    if i == first.len() {
        return false;
    }
    if j == second.len() {
        return true;
    }
    is_ready::<P, N, M>(&first[i], made)
}

/// Has the entries of both logs read: the next of the first log if it received no frame, or one that the second has
/// made by then; else the next of the second. If the reader fails it stops.
pub(crate) fn read_both<P: Party<N, M>, N, M, V: Reads<N>>(
    first: &[Entry<N>],
    second: &[Entry<N>],
    reader: &mut V,
) -> Result<(), AllocError>
    ensures { OnOk result (ReadsAll V.reads reader.old (order P.input P.sends first.now second.now) reader.new) }
{
    let mut i = 0;
    let mut j = 0;
    // wide enough that no sum of counts can pass it
    let mut made: u128 = 0;
    while i < first.len() || j < second.len() {
        if first_is_next::<P, N, M>(first, second, i, j, made) {
            reader.first(&first[i])?;
            i += 1;
        } else {
            reader.second(&second[j])?;
            made += P::sent(&second[j].note) as u128;
            j += 1;
        }
    }
    Ok(())
}
