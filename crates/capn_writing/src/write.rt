//! Writes a tree: the reasons not to, and the bytes of a message of one segment.
ghost use Rattle.std.specs.Prelude.{◌≡◌, ◌≤◌, None, Err, length, IfOk, IfErr, OnOk, MatchOption};
ghost use Rattle.capn_trees.specs.declared.faults.WriteFault.TheVariants as faults;
ghost use Rattle.capn_trees.specs.Views.{view};
ghost use Rattle.capn_trees.specs.Writable.{refusal};
ghost use Rattle.capn_trees.specs.Measuring.{told};
ghost use Rattle.capn_writing.specs.Fitting.{Fits};
ghost use Rattle.capn_trees.specs.Widths.{AreOf};
ghost use Rattle.capn_writing.specs.Placing.{one_segment, segment_for, written};

use crate::little_endian::write_segment;
use crate::place::place;
use capn_trees::limits::{MOST_LEVELS, MOST_VISITED, MOST_WORDS};
use capn_trees::{Element, Measure, Tree, WriteFault, measure_tree};
use std::alloc::{AllocError, Global};

/// The first reason not to write what was found, if there is one.
fn refusal_of(measure: Measure) -> Option<WriteFault>
    ensures { result ≡ told measure }
{
    if measure.is_uneven {
        return Some(WriteFault::BadTag);
    }
    if measure.is_too_deep {
        return Some(WriteFault::Depth);
    }
    if measure.is_beyond {
        return Some(WriteFault::CapIndex);
    }
    if measure.is_too_wide {
        return Some(WriteFault::TooLarge);
    }
    if u64::from(measure.words) > MOST_WORDS {
        return Some(WriteFault::TooLarge);
    }
    if u64::from(measure.visited) > MOST_VISITED {
        return Some(WriteFault::Traversal);
    }
    None
}

/// The bytes of a message of one segment.
pub fn message_of(alloc: Global, words: &[u64]) -> Result<Vec<u8>, AllocError>
    requires { length words.now ≤ 65536 }
    ensures bytes { IfOk result (λ bytes. bytes.items ≡ one_segment words.now) }
    ensures fit { AreOf 64 words.now }
{
    u64::fit(words);
    let mut bytes = Vec::from_elem(alloc, 0, 8 + 8 * words.len())?;
    write_segment(&mut bytes, words);
    Ok(bytes)
}

/// The bytes of the message of one segment that docs/encoding.md lays down for a tree that goes with `caps`
/// capabilities. Refused for the first reason that the page has, each looked for in the whole tree, and with `Memory`
/// if memory runs out.
pub fn write_tree(alloc: Global, tree: &Tree, caps: u32) -> Result<Vec<u8>, WriteFault>
    ensures refused { MatchOption (refusal (view tree.now) caps) (IfErr result (λ e. e ≡ faults.Memory)) (λ fault. result ≡ Err fault) }
    ensures possible { OnOk result (refusal (view tree.now) caps ≡ None) }
    ensures placed { IfOk result (λ bytes. bytes.items ≡ written (view tree.now)) }
    // The numbers of the tree have the widths that its lists say, and those of its words are words.
    ensures fits { OnOk result (Fits (view tree.now)) }
    ensures words { OnOk result (AreOf 64 (segment_for (view tree.now))) }
{
    let measure = measure_tree(tree, caps, MOST_LEVELS, Measure::start(1));
    if let Some(fault) = refusal_of(measure) {
        return Err(fault);
    }
    let words = place(alloc, tree, measure.words)?;
    let message = message_of(alloc, &words)?;
    Ok(message)
}
