//! Payloads of words, and the places in them.

use crate::astray::Astray;
use rpc_msg::{Descriptor, Items, Op, Path, Payload, QuestionId};
use std::alloc::Global;

/// A null pointer that goes with so many capabilities.
pub(crate) fn null_with(alloc: Global, caps: usize) -> Result<Payload, Astray> {
    read(alloc, &[0], caps)
}

/// A struct of so many fields, which are the capabilities in their order, so many structs down.
pub(crate) fn fields(alloc: Global, down: usize, count: u16) -> Result<Payload, Astray> {
    let words = words_of(alloc, down, count)?;
    read(alloc, &words, usize::from(count))
}

fn words_of(alloc: Global, down: usize, count: u16) -> Result<Vec<u64>, Astray> {
    let mut words = Vec::new(alloc);
    words.resize(down, 1 << 48)?;
    words.push(u64::from(count) << 48)?;
    for index in 0..count {
        words.push(3 | u64::from(index) << 32)?;
    }
    Ok(words)
}

/// The path to the field of that number, so many structs down.
pub(crate) fn path_to(alloc: Global, down: usize, field: u16) -> Result<Path, Astray> {
    let mut steps = Vec::new(alloc);
    steps.resize(down, Op::Field(0))?;
    steps.push(Op::Field(field))?;
    match Path::from_ops(&steps) {
        Some(path) => Ok(path),
        None => Err(Astray::LongPath),
    }
}

/// What stands at that place of a question's results.
pub(crate) fn result_at(question: u32, path: Path) -> Descriptor {
    Descriptor::ReceiverAnswer(QuestionId(question), path)
}

/// The same so many times.
pub(crate) fn repeated<T: Copy + Drop>(
    alloc: Global,
    one: T,
    size: u16,
) -> Result<Items<T>, Astray> {
    let mut items = Items::new(alloc);
    for _ in 0..size {
        items.push(one)?;
    }
    Ok(items)
}

// The payload of these words, in one segment.
fn read(alloc: Global, words: &[u64], caps: usize) -> Result<Payload, Astray> {
    let bytes = framed(alloc, words)?;
    Ok(Payload::read(alloc, &bytes, number(caps))?)
}

fn framed(alloc: Global, words: &[u64]) -> Result<Vec<u8>, Astray> {
    let mut bytes = Vec::new(alloc);
    bytes.extend_from_slice(&[0, 0, 0, 0])?;
    bytes.extend_from_slice(&number(words.len()).to_le_bytes())?;
    for word in words {
        bytes.extend_from_slice(&word.to_le_bytes())?;
    }
    Ok(bytes)
}

// Far below the limit of 32 bits.
fn number(count: usize) -> u32 {
    u32::try_from(count).unwrap_or(u32::MAX)
}
