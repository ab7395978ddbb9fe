//! Exceptions (`Exception`), read and written.
ghost use Rattle.std.specs.Prelude.{◌≡◌, ◌<◌, map, string_bytes, IfOk};
ghost use Rattle.capn_trees.specs.Trees.{pointer_at};
ghost use Rattle.capn_trees.specs.Views.{view, trees_view};
ghost use Rattle.rpc_codec_parts.specs.Blocks.{seen};
ghost use Rattle.rpc_codec_parts.specs.Reading.{Gives};
ghost use Rattle.rpc_codec_parts.specs.Exceptions.{plain_byte, readable, text_in, text_of, kind_of, exception_at, kind_number, exception_tree};
ghost use Rattle.rpc_codec_parts.specs.Fitting.{IsWithin};

use crate::block::Block;
use crate::build::with_two;
use crate::faults::{EnvelopeFault, ReadError};
use capn_trees::{Items, Tree};
use rpc_msg::{Exception, ExceptionKind, Memory, Text};
use std::alloc::Global;

/// A byte, and a question mark for one that is no ASCII character.
fn byte_in_ascii(byte: u8) -> u8
    ensures byte { result ≡ plain_byte byte }
    ensures ascii { result < 128 }
{
    if byte > 127 { b'?' } else { byte }
}

fn text_in_ascii(alloc: Global, bytes: &[u8]) -> Result<Text, Memory>
    ensures { IfOk result (λ text. text ≡ map plain_byte bytes.now) }
{
    let mut ascii = Vec::with_capacity(alloc, bytes.len())?;
    for byte in bytes {
        ascii.push_reserved(byte_in_ascii(*byte));
    }
    match String::from_utf8(ascii) {
        Ok(text) => Ok(Text::from_string(text)),
        Err(_) => unreachable!(),
    }
}

/// The text of these bytes, in ASCII if they are not UTF-8.
fn readable_text(alloc: Global, bytes: &[u8]) -> Result<Text, Memory>
    ensures { IfOk result (λ text. text ≡ readable bytes.now) }
{
    match str::from_utf8(bytes) {
        Ok(text) => Text::new(alloc, text),
        Err(_) => text_in_ascii(alloc, bytes),
    }
}

/// The text before the zero that ends bytes.
fn text_in_bytes(alloc: Global, bytes: &[u8]) -> Result<Text, ReadError>
    ensures { Gives (λ text. text) result (text_in bytes.now) }
{
    if bytes.is_empty() {
        return Err(ReadError::Fault(EnvelopeFault::BadText));
    }
    let last = bytes.len() - 1;
    if bytes[last] != 0 {
        return Err(ReadError::Fault(EnvelopeFault::BadText));
    }
    let text = readable_text(alloc, &bytes[..last])?;
    Ok(text)
}

fn text_of_tree(alloc: Global, tree: &Tree) -> Result<Text, ReadError>
    ensures { Gives (λ text. text) result (text_of (view tree.now)) }
{
    match tree {
        Tree::Null => Ok(Text::new(alloc, "")?),
        Tree::List(Items::Bytes(bytes)) => text_in_bytes(alloc, bytes.as_slice()),
        _ => Err(ReadError::Fault(EnvelopeFault::WrongKind)),
    }
}

fn text_behind(alloc: Global, block: &Block, number: usize) -> Result<Text, ReadError>
    ensures { Gives (λ text. text) result (text_of (pointer_at (trees_view block.now.pointers.now) number)) }
{
    match block.pointer(number) {
        None => Ok(Text::new(alloc, "")?),
        Some(tree) => text_of_tree(alloc, tree),
    }
}

fn kind_by(number: u16) -> ExceptionKind
    ensures { result ≡ kind_of number }
{
    match number {
        1 => ExceptionKind::Overloaded,
        2 => ExceptionKind::Disconnected,
        3 => ExceptionKind::Unimplemented,
        _ => ExceptionKind::Failed,
    }
}

/// An exception, read from the struct behind a pointer.
#[tactic(auto, unfolding(crate::specs::Exceptions::exception_at))]
pub fn exception_in(alloc: Global, block: &Block, number: usize) -> Result<Exception, ReadError>
    ensures { Gives (λ e. e) result (exception_at number (seen block.now.words.now block.now.pointers.now)) }
{
    let exception = block.block(number)?;
    let reason = text_behind(alloc, &exception, 0)?;
    Ok(Exception {
        kind: kind_by(exception.number(2)),
        reason,
    })
}

fn number_of_kind(kind: ExceptionKind) -> u64
    ensures number { result ≡ kind_number kind }
    ensures few { kind_number kind < 4 }
{
    match kind {
        ExceptionKind::Failed => 0,
        ExceptionKind::Overloaded => 1,
        ExceptionKind::Disconnected => 2,
        ExceptionKind::Unimplemented => 3,
    }
}

/// An exception, as a tree.
pub fn tree_of_exception(alloc: Global, exception: &Exception) -> Result<Tree, Memory>
    ensures tree { IfOk result (λ t. view t ≡ exception_tree exception.now) }
    ensures depth { IfOk result (λ t. IsWithin 65 (view t)) }
{
    let reason = Tree::text(alloc, exception.reason.as_str())?;
    let word = 0x1_0000_0000 * number_of_kind(exception.kind);
    with_two(alloc, &[word], reason, Tree::Null)
}
