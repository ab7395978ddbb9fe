//! What stands at the front of a stream, by the table of segments alone.
ghost use Rattle.std.specs.Prelude.{◌≡◌, ◌+◌, ◌*◌, ◌≤◌, length, drop, sum};
ghost use Rattle.byteorder.specs.Endian.{little_number};
ghost use Rattle.capn_reading.specs.Segments.{numbers};
ghost use Rattle.capn_stream.specs.Fronts.{front_of};

use byteorder::{ByteOrder, LittleEndian};
use capn_trees::PayloadFault;
use capn_trees::limits::{MOST_SEGMENTS, MOST_WORDS};

/// What stands at the front of a stream.
#[derive(Clone, Copy, Debug, PartialEq, Eq, Drop)]
pub enum Front {
    /// A whole frame, of so many bytes.
    Complete(usize),
    /// The beginning of a frame. So many bytes, counted from its first one, say more: its table, or all of it.
    Need(usize),
    /// No frame within the limits.
    Fault(PayloadFault),
}

/// The number in the four bytes from `at` on.
fn u32_at(bytes: &[u8], at: usize) -> u32
    requires { at + 4 ≤ length bytes.now }
    ensures { result ≡ little_number 4 (drop at bytes.now) }
{
    let (_, rest) = bytes.split_at(at);
    LittleEndian::read_u32(rest)
}

/// How many words the segments have together.
fn words_of(bytes: &[u8], count: usize) -> u64
    requires few { count ≤ 16 }
    requires table { 4 + 4 * count ≤ length bytes.now }
    ensures { result ≡ sum (numbers count (drop 4 bytes.now)) }
{
    let mut words = 0;
    for k in 0..count {
        words += u64::from(u32_at(bytes, 4 + 4 * k));
    }
    words
}

/// What stands at the front of a stream. Takes no memory; a frame that is beyond the limits is told as soon as its
/// number of segments, or its table, is there.
#[tactic(auto, unfolding(crate::specs::Fronts::front_of, capn_reading::specs::Framing::segment_count, capn_reading::specs::Framing::sizes))]
pub fn next_frame(bytes: &[u8]) -> Front
    ensures { result ≡ front_of bytes.now }
{
    if bytes.len() < 4 {
        return Front::Need(4);
    }
    let count = u32_at(bytes, 0) as usize + 1;
    if MOST_SEGMENTS < count {
        return Front::Fault(PayloadFault::TooManySegments);
    }
    let table = 8 * ((count + 2) / 2);
    if bytes.len() < table {
        return Front::Need(table);
    }
    let words = words_of(bytes, count);
    if MOST_WORDS < words {
        return Front::Fault(PayloadFault::TooLarge);
    }
    let len = table + 8 * words as usize;
    if bytes.len() < len {
        return Front::Need(len);
    }
    Front::Complete(len)
}
