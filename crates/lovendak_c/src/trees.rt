// Contents are built place by place.
ghost use Rattle.std.specs.Prelude.{◌≡◌, ◌⊎◌, [], ◌∷◌, ◌++◌, false, replicate};
ghost use Rattle.std.specs.Str.{IsUtf8};
ghost use Rattle.capn_trees.specs.Trees.{null, list, packed, capability};
ghost use Rattle.lovendak_c_trees.specs.Contents.{struct, structs};
ghost use Rattle.lovendak_c_trees.specs.Numbers.{are_sized};
ghost use Rattle.lovendak_c_trees.specs.Tables.{Adds, AddsList, Pushes, Puts, Sets, SetsNumber, Writes};
ghost use Rattle.lovendak_c_trees.specs.declared.fault.TreeFault.TheVariants as tree_fault;
ghost use Rattle.lovendak_c.specs.TreeCalls.{AsksTrees, FreesTrees, GivesTrees, MakesTrees};

use crate::codes::{DONE, EMPTY};
use crate::tree_codes::{IN_USE, told, told_with};
use crate::tree_handle::TreeHandle;
use lovendak_c_trees::Trees;
use std::alloc::Global;

/// Has an empty handle have trees, of which there are none. If it has trees (101), or memory is refused (1), it stays as it is.
#[unsafe(no_mangle)]
pub extern "C" fn lovendak_tree_new(alloc: Global, tree: &mut TreeHandle) -> u32
    ensures { MakesTrees tree.old.raw.trees tree.new.raw.trees result }
{
    if tree.is_full() {
        return IN_USE;
    }
    let made = match Trees::boxed(alloc) {
        Ok(made) => made,
        Err(why) => return told(Err(why)),
    };
    *tree = TreeHandle::of(made);
    DONE
}

/// Lets go of all trees and leaves the handle empty. An empty one (100) stays so.
#[unsafe(no_mangle)]
pub extern "C" fn lovendak_tree_free(alloc: Global, tree: &mut TreeHandle) -> u32
    ensures { FreesTrees tree.old.raw.trees tree.new.raw.trees result }
{
    let Some(trees) = tree.take(alloc) else {
        return EMPTY;
    };
    drop(trees);
    DONE
}

/// Begins a struct of so many data words, which are 0, and so many pointers, which are null: says its number.
#[unsafe(no_mangle)]
pub extern "C" fn lovendak_tree_struct(
    alloc: Global,
    tree: &mut TreeHandle,
    data_words: u16,
    pointers: u16,
    made: &mut u32,
) -> u32
    ensures { GivesTrees tree.old.raw.trees tree.new.raw.trees result made.old made.new (λ old answer new. Adds (struct (record { words = replicate data_words 0; pointers = replicate pointers null })) answer old new) }
{
    let Some(mut trees) = tree.take(alloc) else {
        return EMPTY;
    };
    let answer = trees.add_struct(alloc, data_words, pointers);
    *tree = TreeHandle::of(trees);
    told_with(answer, made)
}

/// Begins a list of so many pointers, which are null: says its number. 2 if there are more than 65,535.
#[unsafe(no_mangle)]
pub extern "C" fn lovendak_tree_list(
    alloc: Global,
    tree: &mut TreeHandle,
    count: u32,
    made: &mut u32,
) -> u32
    ensures { GivesTrees tree.old.raw.trees tree.new.raw.trees result made.old made.new (λ old answer new. AddsList count answer old new) }
{
    let Some(mut trees) = tree.take(alloc) else {
        return EMPTY;
    };
    let answer = trees.add_list(alloc, count);
    *tree = TreeHandle::of(trees);
    told_with(answer, made)
}

/// Begins a list of structs of so many data words and pointers, of which it has none: says its number.
#[unsafe(no_mangle)]
pub extern "C" fn lovendak_tree_structs(
    alloc: Global,
    tree: &mut TreeHandle,
    data_words: u16,
    pointers: u16,
    made: &mut u32,
) -> u32
    ensures { GivesTrees tree.old.raw.trees tree.new.raw.trees result made.old made.new (λ old answer new. Adds (structs data_words pointers []) answer old new) }
{
    let Some(mut trees) = tree.take(alloc) else {
        return EMPTY;
    };
    let answer = trees.add_structs(alloc, data_words, pointers);
    *tree = TreeHandle::of(trees);
    told_with(answer, made)
}

/// Puts a number of so many bits into the data of a struct, at so many times its width. 105 if that is no width, or the number has more
/// bits. 104 past the end of the data, or if no struct is being built.
#[unsafe(no_mangle)]
pub extern "C" fn lovendak_tree_set_number(
    alloc: Global,
    tree: &mut TreeHandle,
    at: u32,
    bits: u32,
    index: u32,
    number: u64,
) -> u32
    ensures { AsksTrees tree.old.raw.trees tree.new.raw.trees result (Unit {0}) (λ old answer new. SetsNumber at bits index number answer old new) }
{
    let Some(mut trees) = tree.take(alloc) else {
        return EMPTY;
    };
    let answer = trees.set_number(at, bits, index, number);
    *tree = TreeHandle::of(trees);
    told(answer)
}

/// Has a pointer lead to a text. 102 if the bytes are no UTF-8, 104 if there is no such pointer.
#[unsafe(no_mangle)]
pub extern "C" fn lovendak_tree_set_text(
    alloc: Global,
    tree: &mut TreeHandle,
    at: u32,
    pointer: u32,
    text: &[u8],
) -> u32
    ensures { AsksTrees tree.old.raw.trees tree.new.raw.trees result (Unit {0}) (λ old answer new. Sets (λ e. (e ≡ tree_fault.Memory) ⊎ ((e ≡ tree_fault.Malformed) × (¬ (IsUtf8 text.now)))) at pointer (list (packed 8 (text.now ++ 0 ∷ []))) answer old new) }
{
    let Some(mut trees) = tree.take(alloc) else {
        return EMPTY;
    };
    let answer = trees.set_text(alloc, at, pointer, text);
    *tree = TreeHandle::of(trees);
    told(answer)
}

/// Has a pointer lead to a list of these bytes. 104 if there is no such pointer.
#[unsafe(no_mangle)]
pub extern "C" fn lovendak_tree_set_data(
    alloc: Global,
    tree: &mut TreeHandle,
    at: u32,
    pointer: u32,
    bytes: &[u8],
) -> u32
    ensures { AsksTrees tree.old.raw.trees tree.new.raw.trees result (Unit {0}) (λ old answer new. Sets (λ e. e ≡ tree_fault.Memory) at pointer (list (packed 8 bytes.now)) answer old new) }
{
    let Some(mut trees) = tree.take(alloc) else {
        return EMPTY;
    };
    let answer = trees.set_data(alloc, at, pointer, bytes);
    *tree = TreeHandle::of(trees);
    told(answer)
}

/// Has a pointer lead to a list of numbers of so many bits. 105 if that is no width or one of them has more bits, 104 if there is
/// no such pointer.
#[unsafe(no_mangle)]
pub extern "C" fn lovendak_tree_set_numbers(
    alloc: Global,
    tree: &mut TreeHandle,
    at: u32,
    pointer: u32,
    bits: u32,
    numbers: &[u64],
) -> u32
    ensures { AsksTrees tree.old.raw.trees tree.new.raw.trees result (Unit {0}) (λ old answer new. Sets (λ e. (e ≡ tree_fault.Memory) ⊎ ((e ≡ tree_fault.NoSuchNumber) × (are_sized bits numbers.now ≡ false))) at pointer (list (packed bits numbers.now)) answer old new) }
{
    let Some(mut trees) = tree.take(alloc) else {
        return EMPTY;
    };
    let answer = trees.set_numbers(alloc, at, pointer, bits, numbers);
    *tree = TreeHandle::of(trees);
    told(answer)
}

/// Has a pointer lead to the capability of that index. 104 if there is no such pointer.
#[unsafe(no_mangle)]
pub extern "C" fn lovendak_tree_set_cap(
    alloc: Global,
    tree: &mut TreeHandle,
    at: u32,
    pointer: u32,
    index: u32,
) -> u32
    ensures { AsksTrees tree.old.raw.trees tree.new.raw.trees result (Unit {0}) (λ old answer new. Sets (λ e. ⊥) at pointer (capability index) answer old new) }
{
    let Some(mut trees) = tree.take(alloc) else {
        return EMPTY;
    };
    let answer = trees.set_capability(at, pointer, index);
    *tree = TreeHandle::of(trees);
    told(answer)
}

/// Has a pointer lead to the tree under another number, which then stands for nothing. 104 if there is no such pointer or no such
/// tree, 2 if it nests too deep.
#[unsafe(no_mangle)]
pub extern "C" fn lovendak_tree_put(
    alloc: Global,
    tree: &mut TreeHandle,
    at: u32,
    pointer: u32,
    from: u32,
) -> u32
    ensures { AsksTrees tree.old.raw.trees tree.new.raw.trees result (Unit {0}) (λ old answer new. Puts at pointer from answer old new) }
{
    let Some(mut trees) = tree.take(alloc) else {
        return EMPTY;
    };
    let answer = trees.put(alloc, at, pointer, from);
    *tree = TreeHandle::of(trees);
    told(answer)
}

/// Puts the struct under a number at the end of a list of structs; the number then stands for nothing. 104 if there is no such list,
/// or no struct of its lengths.
#[unsafe(no_mangle)]
pub extern "C" fn lovendak_tree_push(
    alloc: Global,
    tree: &mut TreeHandle,
    list: u32,
    from: u32,
) -> u32
    ensures { AsksTrees tree.old.raw.trees tree.new.raw.trees result (Unit {0}) (λ old answer new. Pushes list from answer old new) }
{
    let Some(mut trees) = tree.take(alloc) else {
        return EMPTY;
    };
    let answer = trees.push(alloc, list, from);
    *tree = TreeHandle::of(trees);
    told(answer)
}

/// Hands out the bytes of the tree under a number, which go with so many capabilities. If there is too little room (103), nothing is
/// handed out but the length. 104 if there is no tree, 9 if a capability of it is not below their number, 2 if a limit of
/// payloads is passed.
#[unsafe(no_mangle)]
pub extern "C" fn lovendak_tree_write(
    alloc: Global,
    tree: &mut TreeHandle,
    at: u32,
    caps: u32,
    out: &mut [u8],
    len: &mut usize,
) -> u32
    ensures { AsksTrees tree.old.raw.trees tree.new.raw.trees result ((out.new ≡ out.old) × (len.new ≡ len.old)) (λ old answer new. Writes old at caps out.old len.old answer out.new len.new × (new ≡ old)) }
{
    let Some(trees) = tree.take(alloc) else {
        return EMPTY;
    };
    let answer = trees.write(alloc, at, caps, out, len);
    *tree = TreeHandle::of(trees);
    told(answer)
}
