//! Descriptors and their tables (`CapDescriptor`, `Payload.capTable`), read and written.
ghost use Rattle.std.specs.Prelude.{◌≡◌, ◌∷◌, [], ◌≤◌, length, IfOk};
ghost use Rattle.capn_trees.specs.Trees.{structs_count};
ghost use Rattle.capn_trees.specs.Views.{view, fields_view, structs_view};
ghost use Rattle.capn_reading.specs.Reading.{element};
ghost use Rattle.rpc_codec_parts.specs.Blocks.{seen, one};
ghost use Rattle.rpc_codec_parts.specs.Reading.{Gives};
ghost use Rattle.rpc_codec_parts.specs.Descriptors.{vine_at, descriptor_at, descriptors_of, rows_at, descriptor_word, descriptor_pointer, descriptor_tree, rows_of, table_tree};
ghost use Rattle.rpc_codec_parts.specs.Fitting.{IsWithin};

use crate::block::Block;
use crate::build::with_one;
use crate::faults::{EnvelopeFault, ReadError};
use crate::targets::{answer_in, tree_of_answer};
use capn_trees::{Fields, Items, Pointers, Tree, make_fields};
use rpc_msg::{Descriptor, ExportId, Memory};
use std::alloc::Global;

/// The most descriptors that a payload may have.
pub const MOST_DESCRIPTORS: usize = 4_096;

/// Of a capability that a third party hosts, its vine.
#[tactic(auto, unfolding(crate::specs::Descriptors::vine_at))]
fn vine_in(block: &Block) -> Result<Descriptor, ReadError>
    ensures { Gives (λ d. d) result (vine_at (seen block.now.words.now block.now.pointers.now)) }
{
    let third = block.block(0)?;
    Ok(Descriptor::SenderHosted(ExportId(third.number(0))))
}

/// The descriptor that a struct says.
pub fn descriptor_of(block: &Block) -> Result<Descriptor, ReadError>
    ensures { Gives (λ d. d) result (descriptor_at (seen block.now.words.now block.now.pointers.now)) }
{
    match block.number::<u16>(0) {
        0 => Ok(Descriptor::None),
        1 => Ok(Descriptor::SenderHosted(ExportId(block.number(1)))),
        2 => Ok(Descriptor::SenderPromise(ExportId(block.number(1)))),
        3 => Ok(Descriptor::ReceiverHosted(ExportId(block.number(1)))),
        4 => {
            let (question, path) = answer_in(block, 0)?;
            Ok(Descriptor::ReceiverAnswer(question, path))
        }
        5 => vine_in(block),
        _ => Err(ReadError::Unknown),
    }
}

/// The descriptors of a table with these rows.
pub fn descriptors_in(alloc: Global, rows: &[Fields]) -> Result<Vec<Descriptor>, ReadError>
    ensures { Gives (λ v. v.items) result (descriptors_of (structs_view rows.now)) }
{
    let mut descriptors = Vec::new(alloc);
    for row in rows {
        descriptors.push(descriptor_of(&Block::of_fields(row))?)?;
    }
    Ok(descriptors)
}

/// The rows of the table behind a pointer, of which there are few enough.
#[tactic(auto, unfolding(crate::specs::Descriptors::rows_at))]
pub fn rows_behind<'t>(block: &Block<'t>, number: usize) -> Result<&'t [Fields], ReadError>
    ensures rows { Gives (λ rows. structs_view rows.now) result (rows_at number (seen block.now.words.now block.now.pointers.now)) }
    ensures few { IfOk result (λ rows. length rows.now ≤ 4096) }
{
    let rows = block.structs(number)?;
    if rows.len() > MOST_DESCRIPTORS {
        return Err(ReadError::Fault(EnvelopeFault::TooManyDescriptors));
    }
    Ok(rows)
}

/// How many rows a table has.
#[tactic(auto, using(capn_trees::proofs::Counts::structs_counted))]
pub fn count_rows(rows: &[Fields]) -> u32
    requires { length rows.now ≤ 4096 }
    ensures { result ≡ structs_count (structs_view rows.now) }
{
    rows.len() as u32
}

fn word_of_descriptor(descriptor: &Descriptor) -> u64
    ensures { result ≡ descriptor_word descriptor.now }
{
    match descriptor {
        Descriptor::None => 0,
        Descriptor::SenderHosted(id) => 1 + 0x1_0000_0000 * u64::from(id.0),
        Descriptor::SenderPromise(id) => 2 + 0x1_0000_0000 * u64::from(id.0),
        Descriptor::ReceiverHosted(id) => 3 + 0x1_0000_0000 * u64::from(id.0),
        Descriptor::ReceiverAnswer(..) => 4,
    }
}

fn pointer_of_descriptor(alloc: Global, descriptor: &Descriptor) -> Result<Tree, Memory>
    ensures { IfOk result (λ t. view t ≡ descriptor_pointer descriptor.now) }
{
    match descriptor {
        Descriptor::ReceiverAnswer(question, path) => tree_of_answer(alloc, *question, path),
        _ => Ok(Tree::Null),
    }
}

/// A descriptor, as a tree.
pub fn tree_of_descriptor(alloc: Global, descriptor: &Descriptor) -> Result<Tree, Memory>
    ensures tree { IfOk result (λ t. view t ≡ descriptor_tree descriptor.now) }
    ensures depth { IfOk result (λ t. IsWithin 65 (view t)) }
{
    let answer = pointer_of_descriptor(alloc, descriptor)?;
    with_one(alloc, &[word_of_descriptor(descriptor)], answer)
}

/// A row of the table.
fn row_of(alloc: Global, descriptor: &Descriptor) -> Result<Fields, Memory>
    ensures { IfOk result (λ f. fields_view f ≡ (descriptor_word descriptor.now ∷ [], one (descriptor_pointer descriptor.now))) }
{
    let answer = pointer_of_descriptor(alloc, descriptor)?;
    let mut trees = Vec::with_capacity(alloc, 1)?;
    trees.push_reserved(answer);
    let words = Vec::from_slice(alloc, &[word_of_descriptor(descriptor)])?;
    Ok(make_fields(words, Pointers::of(trees)))
}

fn rows_in(alloc: Global, descriptors: &[Descriptor]) -> Result<Vec<Fields>, Memory>
    ensures { IfOk result (λ v. structs_view v.items ≡ rows_of descriptors.now) }
{
    let mut rows = Vec::with_capacity(alloc, descriptors.len())?;
    for descriptor in descriptors {
        rows.push_reserved(row_of(alloc, descriptor)?);
    }
    Ok(rows)
}

/// The table of these descriptors, as a tree.
pub fn tree_of_table(alloc: Global, descriptors: &[Descriptor]) -> Result<Tree, Memory>
    ensures { IfOk result (λ t. view t ≡ table_tree descriptors.now) }
{
    if descriptors.is_empty() {
        return Ok(Tree::Null);
    }
    let items = rows_in(alloc, descriptors)?;
    Ok(Tree::List(Items::Structs {
        data_words: 1,
        pointer_words: 1,
        items,
    }))
}
