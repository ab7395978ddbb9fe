//! A message's segments, and where they lie in its bytes.
ghost use Rattle.std.specs.Prelude.{◌≡◌, ◌+◌, ◌*◌, ◌^◌, ◌≤◌, ◌<◌, ◌/◌, length, drop, nat_lt, IfSome};
ghost use Rattle.capn_reading.specs.Segments.{segment_of, word_at, size_of};
ghost use Rattle.capn_reading.specs.Reading.{elements};
ghost use Rattle.capn_reading.specs.Framing.{framing, framing_within, table_words, is_padded};
ghost use Rattle.capn_reading.specs.Following.{most_counted};

use crate::numbers::{u32_at, u64_at};
use crate::span::{Span, spans_of};
use capn_trees::limits::{MOST_SEGMENTS, MOST_WORDS};
use capn_trees::{Element, PayloadFault};
use std::marker::Model;

/// The bytes of a message with an index of its segments. Contracts see the segments, as lists of words.
#[derive(Drop)]
pub struct Message<'a> {
    bytes: &'a [u8],
    count: usize,
    spans: [Span; MOST_SEGMENTS],
}

impl<'a> Model for Message<'a> {
    ghost use Rattle.std.specs.Prelude.{List, ℕ};

    ghost Value = { List (List ℕ) };

    ghost use Rattle.capn_reading.specs.Index.{spanned, IsIndex};

    ghost view = { λ a. spanned a.bytes.now a.count a.spans };

    ghost invariant = { λ a. IsIndex a.bytes.now a.count a.spans };
}

/// If a table of so many sizes has padding, that is zero.
fn has_zero_padding(bytes: &[u8], count: usize) -> bool
    requires few { count ≤ 16 }
    requires table { 8 * table_words count ≤ length bytes.now }
    ensures { result ≡ is_padded count bytes.now }
{
    count % 2 == 1 || u32_at(bytes, 4 + 4 * count) == 0
}

impl<'a> Message<'a> {
    /// Finds the segments, or the first check of the framing that fails.
    #[tactic(auto, unfolding(crate::specs::Framing::framing))]
    pub fn parse(bytes: &'a [u8]) -> Result<Message<'a>, PayloadFault>
        ensures { result ≡ framing bytes.now }
    {
        Message::parse_within(bytes, MOST_WORDS as u32)
    }

    /// The same if all segments may have so many words together.
    #[tactic(auto, unfolding(crate::specs::Framing::segment_count, crate::specs::Framing::sizes))]
    pub fn parse_within(bytes: &'a [u8], words: u32) -> Result<Message<'a>, PayloadFault>
        requires { words ≤ most_counted }
        ensures { result ≡ framing_within words bytes.now }
    {
        if bytes.len() < 4 {
            return Err(PayloadFault::Short);
        }
        let count = u32_at(bytes, 0) as usize + 1;
        if MOST_SEGMENTS < count {
            return Err(PayloadFault::TooManySegments);
        }
        if bytes.len() < 8 * ((count + 2) / 2) {
            return Err(PayloadFault::Short);
        }
        let (spans, end) = spans_of(bytes, count);
        if u64::from(words) < end - ((count + 2) / 2) as u64 {
            return Err(PayloadFault::TooLarge);
        }
        if (bytes.len() as u64) < 8 * end {
            return Err(PayloadFault::Short);
        }
        if 8 * end < bytes.len() as u64 || !has_zero_padding(bytes, count) {
            return Err(PayloadFault::Trailing);
        }
        Ok(Message {
            bytes,
            count,
            spans,
        })
    }

    /// Is there such a segment?
    pub fn has(&self, segment: u32) -> bool
        ensures { result ≡ nat_lt segment (length self.now) }
    {
        (segment as usize) < self.count
    }

    /// The size of a segment in words, if there is such a segment.
    pub fn size(&self, segment: u32) -> Option<u32>
        ensures size { result ≡ size_of self.now segment }
        ensures short { IfSome result (λ n. n ≤ most_counted) }
    {
        if segment as usize >= self.count {
            return None;
        }
        Some(self.spans[segment as usize].size)
    }

    /// A word of a segment.
    pub fn word(&self, segment: u32, index: u32) -> u64
        requires { index < length (segment_of self.now segment) }
        ensures { result ≡ word_at self.now segment index }
    {
        let span = self.spans[segment as usize];
        let place = span.start + u64::from(index);
        u64_at(self.bytes, 8 * place as usize)
    }

    /// So many bytes from a word of a segment on.
    pub fn bytes(&self, segment: u32, start: u32, count: u32) -> &'a [u8]
        requires inside { start + (count * 8 + 63) / 64 ≤ length (segment_of self.now segment) }
        requires small { start + (count * 8 + 63) / 64 < 2 ^ 32 }
        ensures { result.now ≡ elements (drop start (segment_of self.now segment)) 8 0 count }
    {
        if count == 0 {
            let (none, _) = self.bytes.split_at(0);
            return none;
        }
        u8::fit(self.bytes);
        let span = self.spans[segment as usize];
        let place = 8 * (span.start + u64::from(start));
        let (_, rest) = self.bytes.split_at(place as usize);
        let (found, _) = rest.split_at(count as usize);
        found
    }
}
