//! What a tree would take, and what keeps it from being written, in one pass.
ghost use Rattle.std.specs.Prelude.{◌≡◌, ◌==◌, ℕ, List, false, if◌then◌else◌, length};
ghost use Rattle.capn_trees.specs.Trees.{struct, list, capability, packed, pointers as pointers_of, structs, trees_count, structs_count};
ghost use Rattle.capn_trees.specs.Views.{view, held, items_view, trees_view, structs_view};
ghost use Rattle.capn_trees.specs.Writable.{parts, parts_of_all, parts_of_structs, are_even};
ghost use Rattle.capn_trees.specs.Measuring.{capped, own, together, measured};

use crate::limits::{MOST_ELEMENTS, MOST_SECTION, MOST_WORDS};
use crate::tree::{Fields, Items, Pointers, Tree};

/// What is found in the parts of a tree. Numbers above the limit are one more than it.
#[derive(Clone, Copy)]
pub struct Measure {
    /// A struct in a list has other lengths than the list says.
    pub is_uneven: bool,
    /// Contents nest too deep.
    pub is_too_deep: bool,
    /// A capability is not in the table.
    pub is_beyond: bool,
    /// A section or a list is longer than its pointer can say.
    pub is_too_wide: bool,
    /// The words of all contents.
    pub words: u32,
    /// The words that reading visits.
    pub visited: u32,
}

/// A number of words, or one more than is allowed.
fn capped_words(count: u128) -> u32
    ensures { result ≡ capped count }
{
    if u128::from(MOST_WORDS) < count {
        return 65_537;
    }
    count as u32
}

impl Measure {
    /// What is found before anything was looked at, with so many words.
    pub fn start(words: u32) -> Measure
        ensures { result ≡ record { is_uneven = false; is_too_deep = false; is_beyond = false; is_too_wide = false; words = words; visited = 0 } }
    {
        Measure {
            is_uneven: false,
            is_too_deep: false,
            is_beyond: false,
            is_too_wide: false,
            words,
            visited: 0,
        }
    }

    /// What is found here and in a list of so many elements of so many bits.
    fn and_packed(self, count: u64, bits: u8, levels: u32) -> Measure
        ensures { (caps : ℕ) (xs : List ℕ) → length xs ≡ count → result ≡ together self (own caps (record { levels = levels; what = list (packed bits xs) })) }
    {
        self.and(packed_measure(count, bits, levels))
    }

    /// What is found here and there.
    fn and(self, other: Measure) -> Measure
        ensures { result ≡ together self other }
    {
        // Both are at hand, so `|` and no branches.
        Measure {
            is_uneven: self.is_uneven | other.is_uneven,
            is_too_deep: self.is_too_deep | other.is_too_deep,
            is_beyond: self.is_beyond | other.is_beyond,
            is_too_wide: self.is_too_wide | other.is_too_wide,
            words: capped_words(u128::from(self.words) + u128::from(other.words)),
            visited: capped_words(u128::from(self.visited) + u128::from(other.visited)),
        }
    }
}

fn capability_measure(index: u32, caps: u32) -> Measure
    ensures { (levels : ℕ) → result ≡ own caps (record { levels = levels; what = capability index }) }
{
    Measure {
        is_beyond: caps <= index,
        ..Measure::start(0)
    }
}

/// How many elements of size zero there are.
fn empty_elements(count: u128, step: u128) -> u128
    ensures { result ≡ (if step == 0 then count else 0) }
{
    if step == 0 { count } else { 0 }
}

/// A struct, without what its pointers lead to.
#[tactic(auto, using(crate::proofs::Counts::trees_counted))]
fn struct_measure(words: &[u64], pointers: &Pointers, levels: u32) -> Measure
    ensures { (caps : ℕ) → result ≡ own caps (record { levels = levels; what = struct words.now (trees_view (held pointers.now)) }) }
{
    let size = capped_words(words.len() as u128 + pointers.trees.len() as u128);
    Measure {
        is_too_deep: levels == 0,
        is_too_wide: (MOST_SECTION < words.len()) | (MOST_SECTION < pointers.trees.len()),
        words: size,
        visited: size,
        ..Measure::start(0)
    }
}

/// A list of so many elements of so many bits.
fn packed_measure(count: u64, bits: u8, levels: u32) -> Measure
    ensures { (caps : ℕ) (xs : List ℕ) → length xs ≡ count → result ≡ own caps (record { levels = levels; what = list (packed bits xs) }) }
{
    let size = capped_words((u128::from(count) * u128::from(bits)).div_ceil(64));
    Measure {
        is_too_deep: levels == 0,
        is_too_wide: (bits == 0) & (MOST_ELEMENTS < count),
        words: size,
        visited: size,
        ..Measure::start(0)
    }
}

/// A list of pointers, without what they lead to.
#[tactic(auto, using(crate::proofs::Counts::trees_counted))]
fn pointers_measure(pointers: &Pointers, levels: u32) -> Measure
    ensures { (caps : ℕ) → result ≡ own caps (record { levels = levels; what = list (pointers_of (trees_view (held pointers.now))) }) }
{
    let size = capped_words(pointers.trees.len() as u128);
    Measure {
        is_too_deep: levels == 0,
        words: size,
        visited: size,
        ..Measure::start(0)
    }
}

/// Have all structs of a list these lengths?
fn have_lengths(items: &[Fields], data_words: u16, pointer_words: u16) -> bool
    ensures { result ≡ are_even data_words pointer_words (structs_view items.now) }
{
    for item in items {
        if item.words.len() != usize::from(data_words) {
            return false;
        }
        if item.pointers.trees.len() != usize::from(pointer_words) {
            return false;
        }
    }
    true
}

/// A list of structs, without what their pointers lead to.
#[tactic(auto, using(crate::proofs::Counts::structs_counted))]
fn structs_measure(items: &[Fields], data_words: u16, pointer_words: u16, levels: u32) -> Measure
    ensures { (caps : ℕ) → result ≡ own caps (record { levels = levels; what = list (structs data_words pointer_words (structs_view items.now)) }) }
{
    let count = items.len() as u128;
    let step = u128::from(data_words) + u128::from(pointer_words);
    let size = count * step + 1;
    let more = empty_elements(count, step);
    Measure {
        is_uneven: !have_lengths(items, data_words, pointer_words),
        is_too_deep: levels == 0,
        words: capped_words(size),
        visited: capped_words(size + more),
        ..Measure::start(0)
    }
}

/// A tree with all that it holds, if so many levels are left for its contents.
#[cycle(measure)]
pub fn measure_tree(tree: &Tree, caps: u32, levels: u32, so_far: Measure) -> Measure
    ensures { result ≡ measured caps so_far (parts (view tree.now) levels) }
{
    match tree {
        Tree::Null => so_far,
        Tree::Cap(index) => so_far.and(capability_measure(*index, caps)),
        Tree::Struct { words, pointers } => {
            let so_far = so_far.and(struct_measure(words, pointers, levels));
            measure_pointers(pointers, caps, levels.saturating_sub(1), so_far)
        }
        Tree::List(items) => measure_items(items, caps, levels, so_far),
    }
}

/// A list with all that it holds.
#[cycle(measure)]
fn measure_items(items: &Items, caps: u32, levels: u32, so_far: Measure) -> Measure
    ensures { result ≡ measured caps so_far (parts (list (items_view items.now)) levels) }
{
    match items {
        Items::Void(count) => so_far.and_packed(u64::from(*count), 0, levels),
        Items::Bits(bits) => so_far.and_packed(bits.len() as u64, 1, levels),
        Items::Bytes(bytes) => so_far.and_packed(bytes.len() as u64, 8, levels),
        Items::Twos(twos) => so_far.and_packed(twos.len() as u64, 16, levels),
        Items::Fours(fours) => so_far.and_packed(fours.len() as u64, 32, levels),
        Items::Eights(eights) => so_far.and_packed(eights.len() as u64, 64, levels),
        Items::Pointers(pointers) => {
            let so_far = so_far.and(pointers_measure(pointers, levels));
            measure_pointers(pointers, caps, levels.saturating_sub(1), so_far)
        }
        Items::Structs {
            data_words,
            pointer_words,
            items,
        } => {
            let so_far = so_far.and(structs_measure(items, *data_words, *pointer_words, levels));
            measure_structs(items, caps, levels.saturating_sub(1), so_far)
        }
    }
}

/// Structs with all that they hold.
#[cycle(measure)]
fn measure_structs(items: &[Fields], caps: u32, levels: u32, mut so_far: Measure) -> Measure
    ensures { result ≡ measured caps so_far (parts_of_structs (structs_view items.now) levels) }
{
    for item in items {
        so_far = measure_pointers(&item.pointers, caps, levels, so_far);
    }
    so_far
}

/// What pointers lead to, with all that it holds.
#[cycle(measure)]
fn measure_pointers(pointers: &Pointers, caps: u32, levels: u32, mut so_far: Measure) -> Measure
    ensures { result ≡ measured caps so_far (parts_of_all (trees_view (held pointers.now)) levels) }
{
    let trees = pointers.as_slice();
    for tree in trees {
        // Most pointers are null, and no call is made for these.
        if let Tree::Null = tree {
            continue;
        }
        so_far = measure_tree(tree, caps, levels, so_far);
    }
    so_far
}
