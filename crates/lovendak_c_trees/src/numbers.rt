// Numbers of a width, in data words and as lists.
ghost use Rattle.std.specs.Prelude.{◌≡◌, ◌⊎◌, ◌+◌, ◌/◌, ◌%◌, ◌^◌, ◌<◌, ◌≤◌, true, false, map, MatchResult, ⊤};
ghost use Rattle.std.specs.List.{list_all};
ghost use Rattle.capn_trees.specs.Trees.{list, packed};
ghost use Rattle.capn_trees.specs.Views.{view};
ghost use Rattle.lovendak_c_trees.specs.Numbers.{are_sized, is_below, is_sized, is_width, put_number, replaced};
ghost use Rattle.lovendak_c_trees.specs.Tables.{Does};
ghost use Rattle.lovendak_c_trees.specs.declared.fault.TreeFault.TheVariants as tree_fault;

use crate::fault::TreeFault;
use capn_trees::{Element, Tree};
use std::alloc::{AllocError, Global};

/// Whether numbers have such a width, in bits.
pub(crate) fn is_width(bits: u32) -> bool
    ensures { result ≡ is_width bits }
{
    bits == 1 || bits == 8 || bits == 16 || bits == 32 || bits == 64
}

/// Whether a number has no more bits.
fn is_below(bits: u32, number: u64) -> bool
    requires { bits ≤ 64 }
    ensures { result ≡ is_below bits number }
{
    bits == 64 || number < 1 << bits
}

/// Whether it is a width, and a number has no more bits.
pub(crate) fn is_sized(bits: u32, number: u64) -> bool
    ensures { result ≡ is_sized bits number }
{
    is_width(bits) && is_below(bits, number)
}

/// So many bits of a word, from this one on.
fn bits_of(word: u64, from: u32, bits: u32) -> u64
    requires some { 0 < bits }
    requires inside { from + bits ≤ 64 }
    ensures { result ≡ word / 2 ^ from % 2 ^ bits }
{
    if bits == 64 {
        return word;
    }
    (word >> from) % (1 << bits)
}

/// A word in which the bits from this one on, so many, are those of a number.
fn replaced(word: u64, from: u32, bits: u32, number: u64) -> u64
    requires some { 0 < bits }
    requires inside { from + bits ≤ 64 }
    ensures { result ≡ replaced word from bits number }
{
    let old = bits_of(word, from, bits);
    word.wrapping_sub(old << from).wrapping_add(number << from)
}

/// Puts a number of so many bits into words, at so many times its width. `Nothing` past their end.
pub(crate) fn put_number(
    words: &mut Vec<u64>,
    bits: u32,
    index: u32,
    number: u64,
) -> Result<(), TreeFault>
    requires width { is_width bits ≡ true }
    requires fits { number < 2 ^ bits }
    ensures { Does (put_number words.old.items bits index number) result words.old.items words.new.items }
{
    let place = u64::from(index) * u64::from(bits);
    let at = (place / 64) as usize;
    if words.len() <= at {
        return Err(TreeFault::Nothing);
    }
    words[at] = replaced(words[at], (place % 64) as u32, bits, number);
    Ok(())
}

/// A list of numbers of so many bits. `NoSuchNumber` where that is no width, or one of them has more.
pub(crate) fn numbers_tree(alloc: Global, bits: u32, numbers: &[u64]) -> Result<Tree, TreeFault>
    ensures { MatchResult result (λ t. (are_sized bits numbers.now ≡ true) × (view t ≡ list (packed bits numbers.now)))
        (λ e. (e ≡ tree_fault.Memory) ⊎ ((e ≡ tree_fault.NoSuchNumber) × (are_sized bits numbers.now ≡ false))) }
{
    if !are_sized(bits, numbers) {
        return Err(TreeFault::NoSuchNumber);
    }
    let tree = match bits {
        1 => elements_tree::<bool>(alloc, numbers)?,
        8 => elements_tree::<u8>(alloc, numbers)?,
        16 => elements_tree::<u16>(alloc, numbers)?,
        32 => elements_tree::<u32>(alloc, numbers)?,
        _ => elements_tree::<u64>(alloc, numbers)?,
    };
    Ok(tree)
}

/// Whether it is a width, and none of the numbers has more bits.
fn are_sized(bits: u32, numbers: &[u64]) -> bool
    ensures { result ≡ are_sized bits numbers.now }
{
    is_width(bits) && are_below(bits, numbers)
}

/// Whether none of the numbers has more bits.
fn are_below(bits: u32, numbers: &[u64]) -> bool
    requires { bits ≤ 64 }
    ensures { result ≡ list_all (is_below bits) numbers.now }
{
    numbers.iter().all(|number| is_below(bits, *number))
}

fn elements_tree<E: Element + Drop>(alloc: Global, numbers: &[u64]) -> Result<Tree, AllocError>
    requires { list_all (is_below E.BITS) numbers.now ≡ true }
    ensures { MatchResult result (λ t. view t ≡ list (packed E.BITS numbers.now)) (λ _. ⊤) }
{
    let mut values = Vec::with_capacity(alloc, numbers.len())?;
    for number in numbers {
        values.push_reserved(E::of_number(*number));
    }
    Ok(Tree::List(E::list(values)))
}
