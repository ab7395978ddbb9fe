//! Where a content lies, and of what it consists.
ghost use Rattle.std.specs.Prelude.{◌≡◌, ◌+◌, ◌*◌, ◌^◌, ◌≤◌, ◌<◌, length, IfOk};
ghost use Rattle.capn_reading.specs.Segments.{segment_of};
ghost use Rattle.capn_reading.specs.Layouts.{placed, tagged, laid, weight, IsWithin};

use crate::message::Message;
use crate::pointer::{Shape, Tag};
use crate::referent::Content;
use capn_trees::{PayloadFault, Width};

/// A content by its first word in its segment.
#[derive(Clone, Copy)]
pub enum Layout {
    /// Data words, and pointers behind them.
    Struct {
        start: u32,
        data_words: u16,
        pointer_words: u16,
    },
    /// Elements without pointers.
    Packed {
        start: u32,
        width: Width,
        count: u32,
    },
    /// Pointers.
    Pointers {
        start: u32,
        count: u32,
    },
    /// Structs of one size, from the word behind the tag on, in so many words.
    Structs {
        start: u32,
        count: u32,
        data_words: u16,
        pointer_words: u16,
        words: u32,
    },
}

/// Structs of one size, one behind the other.
#[derive(Clone, Copy)]
pub struct Row {
    pub start: u32,
    pub count: u32,
    pub data_words: u16,
    pub pointer_words: u16,
}

/// The first word of a content that has room in its segment.
fn start_of(start: Option<u64>, words: u64, size: u32) -> Result<u32, PayloadFault>
    requires { words < 2 ^ 63 }
    ensures { result ≡ placed start words size }
{
    let Some(start) = start else {
        return Err(PayloadFault::OutOfBounds);
    };
    if u64::from(size) < start || u64::from(size) - start < words {
        return Err(PayloadFault::OutOfBounds);
    }
    Ok(start as u32)
}

/// A list of structs with a tag at a place.
fn tagged_at(start: u32, words: u32, tag: Option<Tag>) -> Result<Layout, PayloadFault>
    requires { start < 2 ^ 31 }
    ensures { result ≡ tagged start words tag }
{
    let Some(tag) = tag else {
        return Err(PayloadFault::BadTag);
    };
    let step = u32::from(tag.data_words) + u32::from(tag.pointer_words);
    if u64::from(words) < u64::from(tag.count) * u64::from(step) {
        return Err(PayloadFault::BadTag);
    }
    Ok(Layout::Structs {
        start: start + 1,
        count: tag.count,
        data_words: tag.data_words,
        pointer_words: tag.pointer_words,
        words,
    })
}

impl Layout {
    /// The words that a visit counts.
    pub fn weight(self) -> u64
        ensures weight { result ≡ weight self }
        ensures small { result < 2 ^ 40 }
    {
        match self {
            Layout::Struct {
                data_words,
                pointer_words,
                ..
            } => u64::from(data_words) + u64::from(pointer_words),
            Layout::Packed { width, count, .. } => Shape::Packed { width, count }.words(),
            Layout::Pointers { count, .. } => u64::from(count),
            Layout::Structs {
                count,
                data_words: 0,
                pointer_words: 0,
                words,
                ..
            } => u64::from(words) + 1 + u64::from(count),
            Layout::Structs { words, .. } => u64::from(words) + 1,
        }
    }
}

/// Where a content lies, or the first check of its place and its tag that fails.
#[inline(always)]
#[tactic(auto, unfolding(crate::specs::Layouts::laid))]
pub fn lay_out(message: &Message, content: Content) -> Result<Layout, PayloadFault>
    ensures laid { result ≡ laid message.now content }
    ensures within { IfOk result (IsWithin (length (segment_of message.now content.segment))) }
{
    let size = message.size(content.segment).unwrap_or(0);
    let start = start_of(content.start, content.shape.words(), size)?;
    match content.shape {
        Shape::Struct {
            data_words,
            pointer_words,
        } => Ok(Layout::Struct {
            start,
            data_words,
            pointer_words,
        }),
        Shape::Packed { width, count } => Ok(Layout::Packed {
            start,
            width,
            count,
        }),
        Shape::Pointers { count } => Ok(Layout::Pointers { start, count }),
        Shape::Composite { words } => {
            let tag = Tag::decode(message.word(content.segment, start));
            tagged_at(start, words, tag)
        }
    }
}
