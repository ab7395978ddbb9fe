//! How far a frame goes, by its table.
ghost use Rattle.std.specs.Prelude.{◌≡◌, ◌⊎◌, ◌+◌, ◌*◌, ◌≤◌, length, drop, sum};
ghost use Rattle.byteorder.specs.Endian.{little_number};
ghost use Rattle.capn_reading.specs.Segments.{numbers};
ghost use Rattle.capn_fronts.specs.Parts.{front_of, keeps_of, kept_at, reach_at};

use byteorder::{ByteOrder, LittleEndian};
use capn_stream::Front;
use capn_trees::PayloadFault;
use capn_trees::limits::{MOST_SEGMENTS, MOST_WORDS};

/// The most words of a frame.
const MOST_FRAME_WORDS: u64 = 8_388_608;

/// The words of segments in the front of a large frame.
const FRONT_WORDS: usize = 1024;

/// What stands at the front of a stream, and how many of its bytes are kept.
#[derive(Clone, Copy, Debug, PartialEq, Eq, Drop)]
pub(crate) struct Extent {
    pub(crate) front: Front,
    pub(crate) keeps: usize,
}

/// The number in the four bytes from `at` on.
fn u32_at(bytes: &[u8], at: usize) -> u32
    requires { at + 4 ≤ length bytes.now }
    ensures { result ≡ little_number 4 (drop at bytes.now) }
{
    let (_, rest) = bytes.split_at(at);
    LittleEndian::read_u32(rest)
}

/// How many words the segments have together.
fn words_of(bytes: &[u8], count: usize) -> u64
    requires few { count ≤ 16 }
    requires table { 4 + 4 * count ≤ length bytes.now }
    ensures { result ≡ sum (numbers count (drop 4 bytes.now)) }
{
    let mut words = 0;
    for k in 0..count {
        words += u64::from(u32_at(bytes, 4 + 4 * k));
    }
    words
}

/// How far a frame goes of which these bytes are kept, and so many behind them were dropped.
#[tactic(auto, unfolding(crate::specs::Parts::front_of, crate::specs::Parts::keeps_of, capn_reading::specs::Framing::segment_count, capn_reading::specs::Framing::sizes))]
pub(crate) fn extent_of(kept: &[u8], dropped: usize) -> Extent
    requires few { dropped ≤ 8 * 8388617 }
    requires table { (dropped ≡ 0) ⊎ (72 ≤ length kept.now) }
    ensures front { result.front ≡ front_of (record { kept = kept.now; dropped = dropped }) }
    ensures keeps { result.keeps ≡ keeps_of (record { kept = kept.now; dropped = dropped }) }
{
    let len = kept.len() + dropped;
    if len < 4 {
        return Extent {
            front: Front::Need(4),
            keeps: 4,
        };
    }
    let count = u32_at(kept, 0) as usize + 1;
    if MOST_SEGMENTS < count {
        return Extent {
            front: Front::Fault(PayloadFault::TooManySegments),
            keeps: 4,
        };
    }
    let table = 8 * ((count + 2) / 2);
    if len < table {
        return Extent {
            front: Front::Need(table),
            keeps: table,
        };
    }
    let words = words_of(kept, count);
    Extent {
        front: reach(len, count, words),
        keeps: kept_of(count, words),
    }
}

/// How far a frame goes whose table is there.
fn reach(len: usize, count: usize, words: u64) -> Front
    requires { count ≤ 16 }
    ensures { result ≡ reach_at len count words }
{
    if MOST_FRAME_WORDS < words {
        return Front::Fault(PayloadFault::TooLarge);
    }
    let whole = 8 * ((count + 2) / 2 + words as usize);
    if len < whole {
        return Front::Need(whole);
    }
    Front::Complete(whole)
}

/// How many bytes are kept of it.
fn kept_of(count: usize, words: u64) -> usize
    requires { count ≤ 16 }
    ensures { result ≡ kept_at count words }
{
    let table = (count + 2) / 2;
    if MOST_WORDS < words {
        return 8 * (table + FRONT_WORDS);
    }
    8 * (table + words as usize)
}
