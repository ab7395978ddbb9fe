//! What a pointer leads to, through its far pads.
ghost use Rattle.std.specs.Prelude.{◌≡◌, ◌+◌, ◌^◌, ◌<◌, ◌≤◌, length};
ghost use Rattle.capn_reading.specs.Segments.{segment_of, size_of};
ghost use Rattle.capn_reading.specs.Following.{visit, target, single_pad, double_pad, pad_words, pad_at, far, capability, followed};

use crate::message::Message;
use crate::pointer::{Pointer, Shape};
use crate::walk::MOST_COUNTED;
use capn_trees::PayloadFault;

/// A struct or a list, somewhere in a segment.
#[derive(Clone, Copy)]
pub struct Content {
    pub segment: u32,
    /// Its first word; none if that would be before the segment.
    pub start: Option<u64>,
    pub shape: Shape,
}

/// What a pointer leads to.
#[derive(Clone, Copy)]
pub enum Referent {
    Null,
    Capability(u32),
    Content(Content),
}

/// The visited words after so many more, if that is not too many.
pub fn visited_after(visited: u32, more: u64) -> Result<u32, PayloadFault>
    requires { more < 2 ^ 63 }
    ensures { result ≡ visit visited more }
{
    let total = u64::from(visited) + more;
    if u64::from(MOST_COUNTED) < total {
        return Err(PayloadFault::Traversal);
    }
    Ok(total as u32)
}

/// Where a pointer's content begins.
fn target_of(index: u32, offset: u32) -> Option<u64>
    ensures { result ≡ target index offset }
{
    let sum = u64::from(index) + 1 + u64::from(offset);
    if offset < 0x2000_0000 {
        return Some(sum);
    }
    if sum < 0x4000_0000 {
        return None;
    }
    Some(sum - 0x4000_0000)
}

/// A pointer of the fourth kind.
fn capability_of(caps: u32, middle: u32, index: u32) -> Result<Referent, PayloadFault>
    ensures { result ≡ capability caps middle index }
{
    if middle != 0 {
        return Err(PayloadFault::BadOther);
    }
    if index < caps {
        Ok(Referent::Capability(index))
    } else {
        Err(PayloadFault::CapIndex)
    }
}

/// A landing pad of one word.
fn single_pad_of(segment: u32, index: u32, pad: Pointer) -> Result<Referent, PayloadFault>
    ensures { result ≡ single_pad segment index pad }
{
    let Pointer::Content { offset, shape } = pad else {
        return Err(PayloadFault::BadFar);
    };
    let start = target_of(index, offset);
    Ok(Referent::Content(Content {
        segment,
        start,
        shape,
    }))
}

/// A landing pad of two words.
fn double_pad_of(message: &Message, pad: Pointer, tag: Pointer) -> Result<Referent, PayloadFault>
    ensures { result ≡ double_pad message.now pad tag }
{
    let Pointer::Far {
        is_double: false,
        offset,
        segment,
    } = pad
    else {
        return Err(PayloadFault::BadFar);
    };
    let Pointer::Content { offset: 0, shape } = tag else {
        return Err(PayloadFault::BadFar);
    };
    if !message.has(segment) {
        return Err(PayloadFault::OutOfBounds);
    }
    Ok(Referent::Content(Content {
        segment,
        start: Some(u64::from(offset)),
        shape,
    }))
}

/// The landing pad at a place.
fn pad_of(
    message: &Message,
    is_double: bool,
    segment: u32,
    index: u32,
) -> Result<Referent, PayloadFault>
    requires inside { index + pad_words is_double ≤ length (segment_of message.now segment) }
    requires fits { index + pad_words is_double < 2 ^ 32 }
    ensures { result ≡ pad_at message.now is_double segment index }
{
    let pad = Pointer::decode(message.word(segment, index));
    if is_double {
        let tag = Pointer::decode(message.word(segment, index + 1));
        double_pad_of(message, pad, tag)
    } else {
        single_pad_of(segment, index, pad)
    }
}

/// What a far pointer leads to.
#[inline(always)]
#[tactic(auto, unfolding(crate::specs::Following::far))]
fn far_of(
    message: &Message,
    is_double: bool,
    segment: u32,
    index: u32,
    visited: u32,
) -> Result<(Referent, u32), PayloadFault>
    ensures { result ≡ far message.now is_double segment (size_of message.now segment) index visited }
{
    let Some(size) = message.size(segment) else {
        return Err(PayloadFault::OutOfBounds);
    };
    let words = if is_double { 2 } else { 1 };
    if u64::from(size) < u64::from(index) + words {
        return Err(PayloadFault::OutOfBounds);
    }
    let visited = visited_after(visited, words)?;
    let referent = pad_of(message, is_double, segment, index)?;
    Ok((referent, visited))
}

/// What the pointer at a place leads to, and the visited words after its pads.
#[inline(always)]
#[tactic(auto, unfolding(crate::specs::Following::leads))]
pub fn follow(
    message: &Message,
    caps: u32,
    segment: u32,
    index: u32,
    visited: u32,
) -> Result<(Referent, u32), PayloadFault>
    requires { index < length (segment_of message.now segment) }
    ensures { result ≡ followed message.now caps segment index visited }
{
    match Pointer::decode(message.word(segment, index)) {
        Pointer::Null => Ok((Referent::Null, visited)),
        Pointer::Content { offset, shape } => {
            let start = target_of(index, offset);
            Ok((
                Referent::Content(Content {
                    segment,
                    start,
                    shape,
                }),
                visited,
            ))
        }
        Pointer::Far {
            is_double,
            offset,
            segment,
        } => far_of(message, is_double, segment, offset, visited),
        Pointer::Other { middle, index } => {
            let referent = capability_of(caps, middle, index)?;
            Ok((referent, visited))
        }
    }
}
