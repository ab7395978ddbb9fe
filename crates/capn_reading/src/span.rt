//! Where a message's segments lie in its bytes.
ghost use Rattle.std.specs.Prelude.{◌≡◌, ◌+◌, ◌*◌, ◌^◌, ◌<◌, ◌≤◌, length, drop, sum};
ghost use Rattle.capn_reading.specs.Segments.{numbers, segments_in};
ghost use Rattle.capn_reading.specs.Framing.{table_words};
ghost use Rattle.capn_reading.specs.Index.{spanned, LieBetween};

use crate::numbers::u32_at;
use capn_trees::limits::MOST_SEGMENTS;

/// A segment's place, in words from the message's first byte.
#[derive(Clone, Copy)]
pub struct Span {
    pub start: u64,
    pub size: u32,
}

/// The places of the segments, and the word behind the last one. The table is inside the bytes.
pub fn spans_of(bytes: &[u8], count: usize) -> ([Span; MOST_SEGMENTS], u64)
    requires few { count ≤ 16 }
    requires table { 8 * table_words count ≤ length bytes.now }
    ensures segments { spanned bytes.now count result.0
        ≡ segments_in (numbers count (drop 4 bytes.now)) (drop (8 * table_words count) bytes.now) }
    ensures end { result.1 ≡ table_words count + sum (numbers count (drop 4 bytes.now)) }
    ensures places { length result.0 ≡ 16 }
    ensures small { result.1 < 2 ^ 40 }
    ensures inside { LieBetween (table_words count) result.1 count result.0 }
{
    let mut spans = [Span { start: 0, size: 0 }; MOST_SEGMENTS];
    let mut start = (count as u64 + 2) / 2;
    for k in 0..count {
        let size = u32_at(bytes, 4 + 4 * k);
        spans[k] = Span { start, size };
        start += u64::from(size);
    }
    (spans, start)
}
