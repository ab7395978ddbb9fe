//! The walk over all that a pointer leads to. It counts the visited words, and builds nothing.
ghost use Rattle.std.specs.Prelude.{◌≡◌, ◌+◌, ◌*◌, ◌^◌, ◌≤◌, ◌<◌, length};
ghost use Rattle.capn_reading.specs.Segments.{segment_of};
ghost use Rattle.capn_reading.specs.Layouts.{EndsIn, IsWithin};
ghost use Rattle.capn_reading.specs.Reading.{pointers_at, structs_at, content_of, reading, message_of, visited_of, message_within, root_up_to};
ghost use Rattle.capn_reading.specs.Following.{most_counted};

use crate::layout::{Layout, Row, lay_out};
use crate::message::Message;
use crate::referent::{Referent, follow, visited_after};
use capn_trees::PayloadFault;
use capn_trees::limits::{MOST_LEVELS, MOST_VISITED};

/// Visited words are counted up to here, so no limit on them is larger. If the limit is smaller, the count begins at
/// the difference.
pub const MOST_COUNTED: u32 = 4_194_304;

/// Where the count of visited words ends in a message, or the first check that fails. The limit is that of
/// docs/encoding.md, so the count begins at `MOST_COUNTED - MOST_VISITED`.
#[tactic(auto, unfolding(crate::specs::Reading::message_of, crate::specs::Reading::root_of, crate::specs::Reading::message_within, crate::specs::Reading::root_within))]
pub fn visited_words(bytes: &[u8], caps: u32) -> Result<u32, PayloadFault>
    ensures { result ≡ visited_of (message_of bytes.now caps) }
{
    visited_within(bytes, caps, MOST_LEVELS)
}

/// The same if contents nest at most so deep.
#[tactic(auto, unfolding(crate::specs::Reading::message_within, crate::specs::Reading::root_within))]
pub fn visited_within(bytes: &[u8], caps: u32, levels: u32) -> Result<u32, PayloadFault>
    ensures { result ≡ visited_of (message_within bytes.now caps levels) }
{
    let message = Message::parse(bytes)?;
    walk_root(&message, caps, levels, MOST_VISITED as u32)
}

/// Where the count ends in all that the root pointer leads to, if so many words may be visited, and contents nest at most
/// so deep.
pub fn walk_root(message: &Message, caps: u32, levels: u32, words: u32) -> Result<u32, PayloadFault>
    requires { words ≤ most_counted }
    ensures { result ≡ visited_of (root_up_to words message.now caps levels) }
{
    if message.size(0).unwrap_or(0) == 0 {
        return Err(PayloadFault::OutOfBounds);
    }
    walk_pointer(message, caps, 0, 0, levels, MOST_COUNTED - words)
}

/// The pointer at a place, with contents nested at most `levels` deep.
#[cycle(walk)]
pub fn walk_pointer(
    message: &Message,
    caps: u32,
    segment: u32,
    index: u32,
    levels: u32,
    visited: u32,
) -> Result<u32, PayloadFault>
    requires { index < length (segment_of message.now segment) }
    ensures { result ≡ visited_of (reading message.now caps levels segment index visited) }
{
    let (referent, visited) = follow(message, caps, segment, index, visited)?;
    let Referent::Content(content) = referent else {
        return Ok(visited);
    };
    if levels == 0 {
        return Err(PayloadFault::Depth);
    }
    let layout = lay_out(message, content)?;
    let visited = visited_after(visited, layout.weight())?;
    walk_content(message, caps, content.segment, layout, levels - 1, visited)
}

/// The pointers of a content, in their order.
#[cycle(walk)]
#[inline(always)]
fn walk_content(
    message: &Message,
    caps: u32,
    segment: u32,
    layout: Layout,
    levels: u32,
    visited: u32,
) -> Result<u32, PayloadFault>
    requires { IsWithin (length (segment_of message.now segment)) layout }
    ensures { result ≡ visited_of (content_of message.now (reading message.now caps levels) segment layout visited) }
{
    match layout {
        Layout::Struct {
            start,
            data_words,
            pointer_words,
        } => {
            let first = start + u32::from(data_words);
            walk_pointers(
                message,
                caps,
                segment,
                first,
                u32::from(pointer_words),
                levels,
                visited,
            )
        }
        Layout::Packed { .. } => Ok(visited),
        Layout::Pointers { start, count } => {
            walk_pointers(message, caps, segment, start, count, levels, visited)
        }
        Layout::Structs {
            start,
            count,
            data_words,
            pointer_words,
            ..
        } => {
            if pointer_words == 0 {
                return Ok(visited);
            }
            let row = Row {
                start,
                count,
                data_words,
                pointer_words,
            };
            walk_structs(message, caps, segment, row, levels, visited)
        }
    }
}

/// Structs, one behind the other.
#[cycle(walk)]
fn walk_structs(
    message: &Message,
    caps: u32,
    segment: u32,
    row: Row,
    levels: u32,
    mut visited: u32,
) -> Result<u32, PayloadFault>
    requires { EndsIn (length (segment_of message.now segment)) (row.start + row.count * (row.data_words + row.pointer_words)) }
    ensures { result ≡ visited_of (structs_at message.now (reading message.now caps levels) segment row.data_words row.pointer_words row.start row.count visited) }
{
    let mut at = row.start;
    for _ in 0..row.count {
        let first = at + u32::from(row.data_words);
        visited = walk_pointers(
            message,
            caps,
            segment,
            first,
            u32::from(row.pointer_words),
            levels,
            visited,
        )?;
        at = first + u32::from(row.pointer_words);
    }
    Ok(visited)
}

/// So many pointers, one behind the other.
#[cycle(walk)]
fn walk_pointers(
    message: &Message,
    caps: u32,
    segment: u32,
    start: u32,
    count: u32,
    levels: u32,
    mut visited: u32,
) -> Result<u32, PayloadFault>
    requires { EndsIn (length (segment_of message.now segment)) (start + count) }
    ensures { result ≡ visited_of (pointers_at (reading message.now caps levels) segment start count visited) }
{
    for k in 0..count {
        // Most pointers are null, and no call is made for these.
        if message.word(segment, start + k) == 0 {
            continue;
        }
        visited = walk_pointer(message, caps, segment, start + k, levels, visited)?;
    }
    Ok(visited)
}
