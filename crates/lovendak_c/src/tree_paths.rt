// Payloads are looked into by paths.
ghost use Rattle.std.specs.Prelude.{◌≡◌};
ghost use Rattle.lovendak_c_trees.specs.Looks.{CapabilityAt, DataAt, KindAt, NumberAt, Reads, TextAt, payload_at};
ghost use Rattle.lovendak_c.specs.TreeCalls.{AsksTrees, GivesTrees};

use crate::codes::{DONE, EMPTY};
use crate::tree_codes::{told, told_with};
use crate::tree_handle::TreeHandle;
use std::alloc::Global;

/// Reads a payload that goes with so many capabilities: says its number. 102 if the bytes are none.
#[unsafe(no_mangle)]
pub extern "C" fn lovendak_tree_read(
    alloc: Global,
    tree: &mut TreeHandle,
    payload: &[u8],
    caps: u32,
    made: &mut u32,
) -> u32
    ensures { GivesTrees tree.old.raw.trees tree.new.raw.trees result made.old made.new (λ old answer new. Reads (record { bytes = payload.now; caps = caps }) answer old new) }
{
    let Some(mut trees) = tree.take(alloc) else {
        return EMPTY;
    };
    let answer = trees.read(alloc, payload, caps);
    *tree = TreeHandle::of(trees);
    told_with(answer, made)
}

/// Says what stands at a path of a payload: 0 null, 1 a struct, 2 a list, 3 a capability. The number is how many elements the list has,
/// or the index of the capability. 104 if there is no such payload or path.
#[unsafe(no_mangle)]
pub extern "C" fn lovendak_tree_kind(
    alloc: Global,
    tree: &mut TreeHandle,
    at: u32,
    path: &[u32],
    kind: &mut u32,
    number: &mut u32,
) -> u32
    ensures { GivesTrees tree.old.raw.trees tree.new.raw.trees result (record { kind = kind.old; number = number.old }) (record { kind = kind.new; number = number.new }) (λ old answer new. KindAt (payload_at old at) path.now answer × (new ≡ old)) }
{
    let Some(trees) = tree.take(alloc) else {
        return EMPTY;
    };
    let answer = trees.kind(at, path);
    *tree = TreeHandle::of(trees);
    match answer {
        Ok(standing) => {
            *kind = standing.kind;
            *number = standing.number;
            DONE
        }
        Err(why) => told(Err(why)),
    }
}

/// Says the number of so many bits at so many times its width, in the data of a struct at a path of a payload, or in a list of such
/// numbers. It is 0 past the end of the data and behind null. 105 if that is no width, 104 if something else stands there, or nothing.
#[unsafe(no_mangle)]
pub extern "C" fn lovendak_tree_number(
    alloc: Global,
    tree: &mut TreeHandle,
    at: u32,
    path: &[u32],
    bits: u32,
    index: u32,
    number: &mut u64,
) -> u32
    ensures { GivesTrees tree.old.raw.trees tree.new.raw.trees result number.old number.new (λ old answer new. NumberAt (payload_at old at) path.now bits index answer × (new ≡ old)) }
{
    let Some(trees) = tree.take(alloc) else {
        return EMPTY;
    };
    let answer = trees.number(at, path, bits, index);
    *tree = TreeHandle::of(trees);
    told_with(answer, number)
}

/// Hands out the text at a path of a payload: none behind null. If there is too little room (103), nothing is handed out but the length.
/// 104 if something else stands there, or nothing.
#[unsafe(no_mangle)]
pub extern "C" fn lovendak_tree_text(
    alloc: Global,
    tree: &mut TreeHandle,
    at: u32,
    path: &[u32],
    out: &mut [u8],
    len: &mut usize,
) -> u32
    ensures { AsksTrees tree.old.raw.trees tree.new.raw.trees result ((out.new ≡ out.old) × (len.new ≡ len.old)) (λ old answer new. TextAt (payload_at old at) path.now out.old len.old answer out.new len.new × (new ≡ old)) }
{
    let Some(trees) = tree.take(alloc) else {
        return EMPTY;
    };
    let answer = trees.text(at, path, out, len);
    *tree = TreeHandle::of(trees);
    told(answer)
}

/// Hands out the bytes of the list of bytes at a path of a payload: none behind null. If there is too little room (103), nothing is handed out but the length.
/// 104 if something else stands there, or nothing.
#[unsafe(no_mangle)]
pub extern "C" fn lovendak_tree_data(
    alloc: Global,
    tree: &mut TreeHandle,
    at: u32,
    path: &[u32],
    out: &mut [u8],
    len: &mut usize,
) -> u32
    ensures { AsksTrees tree.old.raw.trees tree.new.raw.trees result ((out.new ≡ out.old) × (len.new ≡ len.old)) (λ old answer new. DataAt (payload_at old at) path.now out.old len.old answer out.new len.new × (new ≡ old)) }
{
    let Some(trees) = tree.take(alloc) else {
        return EMPTY;
    };
    let answer = trees.data(at, path, out, len);
    *tree = TreeHandle::of(trees);
    told(answer)
}

/// Says the index of the capability at a path of a payload. 104 if something else stands there, or nothing.
#[unsafe(no_mangle)]
pub extern "C" fn lovendak_tree_cap(
    alloc: Global,
    tree: &mut TreeHandle,
    at: u32,
    path: &[u32],
    index: &mut u32,
) -> u32
    ensures { GivesTrees tree.old.raw.trees tree.new.raw.trees result index.old index.new (λ old answer new. CapabilityAt (payload_at old at) path.now answer × (new ≡ old)) }
{
    let Some(trees) = tree.take(alloc) else {
        return EMPTY;
    };
    let answer = trees.capability(at, path);
    *tree = TreeHandle::of(trees);
    told_with(answer, index)
}
