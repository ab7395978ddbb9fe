//! Payloads: read, looked into, written, and as the `capnp` tool made them; documents; streams of frames; and values and entries.
//! `stream` goes with refused allocations too (`scripts/refused`).
mod documents;
mod entries;
mod places;
mod reading;
mod segments;
mod stream;
mod trees;
mod values;

use capn_wire::{CapAt, Op, Payload, Tree};
use std::alloc::Global;
use std::test::Fail;
use tests_parts::bytes_of;

/// Bytes with so many zero words behind them.
fn with_zeros(alloc: Global, text: &str, words: usize) -> Result<Vec<u8>, Fail> {
    let mut bytes = bytes_of(alloc, text)?;
    let len = bytes.len().saturating_add(words.saturating_mul(8));
    bytes.resize(len, 0)?;
    Ok(bytes)
}

// No clause says what these do: a test is proved quicker if nothing is known of what it compares.
fn read(alloc: Global, bytes: &[u8], caps: u32) -> Result<Payload, Fail> {
    Ok(Payload::read(alloc, bytes, caps)?)
}

fn read_text(alloc: Global, text: &str, caps: u32) -> Result<Payload, Fail> {
    let bytes = bytes_of(alloc, text)?;
    read(alloc, &bytes, caps)
}

fn copied(alloc: Global, payload: &Payload) -> Result<Payload, Fail> {
    Ok(payload.copy(alloc)?)
}

fn tree_in(alloc: Global, payload: &Payload) -> Result<Tree, Fail> {
    Ok(payload.tree(alloc)?)
}

fn cap_at(payload: &Payload, path: &[Op]) -> CapAt {
    payload.cap_at(path)
}

fn is_made_of(payload: &Payload, bytes: &[u8], caps: u32) -> bool {
    payload.bytes() == bytes && payload.caps() == caps
}
