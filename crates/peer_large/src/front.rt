//! What is read in the front of a frame.
ghost use Rattle.std.specs.Prelude.{◌≡◌, ◌+◌, ◌^◌, ◌<◌, ◌≤◌, [], ◌∷◌, length, drop, IfSome};
ghost use Rattle.byteorder.specs.Endian.{little_number};
ghost use Rattle.capn_reading.specs.Reading.{element};
ghost use Rattle.peer_large.specs.Fronts.{IsNear, call_in, first_of, large_by, large_in, led_by, return_in, spot_at, spot_by, word_at, word_from};

use byteorder::{ByteOrder, LittleEndian};
use rpc_codec_parts::Block;
use rpc_msg::{AnswerId, QuestionId};

/// A message of which no more is read than the question that it asks or answers.
#[derive(Clone, Copy, Debug, PartialEq, Eq, Drop)]
pub enum Large {
    /// A Call, whose results go to its caller: its `questionId`.
    Call(QuestionId),
    /// A Return with results or an exception, or of a canceled call: its `answerId` and its `releaseParamCaps`.
    Return(AnswerId, bool),
}

/// Where a struct begins in segment 0, and how many words and pointers it has.
#[derive(Clone, Copy, Debug, PartialEq, Eq, Drop)]
pub(crate) struct Spot {
    start: u64,
    data_words: u64,
    pointer_words: u64,
}

/// The question that the frame of these bytes asks or answers, if it is a Call or a Return and its front says so. The bytes are
/// all of the frame, or its front. Takes no memory.
#[tactic(auto, unfolding(crate::specs::Fronts::large_in))]
pub fn read_front(bytes: &[u8]) -> Option<Large>
    ensures { result ≡ large_in bytes.now }
{
    let root = spot_at(bytes, 0)?;
    let first = first_of(bytes, root)?;
    let message = led_by(bytes, root)?;
    let word = first_of(bytes, message)?;
    large_by(first, word)
}

fn large_by(first: u64, word: u64) -> Option<Large>
    ensures { result ≡ large_by (element (first ∷ []) 16 0) (word ∷ []) }
{
    let root = Block {
        words: &[first],
        pointers: &[],
    };
    let number = root.number::<u16>(0);
    if number == 2 {
        return call_in(word);
    }
    if number == 3 {
        return return_in(word);
    }
    None
}

fn call_in(word: u64) -> Option<Large>
    ensures { result ≡ call_in (word ∷ []) }
{
    let call = Block {
        words: &[word],
        pointers: &[],
    };
    if call.number::<u16>(3) != 0 {
        return None;
    }
    Some(Large::Call(QuestionId(call.number::<u32>(0))))
}

fn return_in(word: u64) -> Option<Large>
    ensures { result ≡ return_in (word ∷ []) }
{
    let said = Block {
        words: &[word],
        pointers: &[],
    };
    if said.number::<u16>(3) > 2 {
        return None;
    }
    let answer = QuestionId(said.number::<u32>(0));
    Some(Large::Return(answer, said.default_true(32)))
}

// The first word of a struct's data.
fn first_of(bytes: &[u8], spot: Spot) -> Option<u64>
    ensures { result ≡ first_of bytes.now spot }
{
    if spot.data_words == 0 {
        return None;
    }
    word_at(bytes, spot.start)
}

// The struct that its first pointer leads to.
fn led_by(bytes: &[u8], spot: Spot) -> Option<Spot>
    requires { spot.start + spot.data_words < 2 ^ 62 }
    ensures { result ≡ led_by bytes.now spot }
{
    if spot.pointer_words == 0 {
        return None;
    }
    spot_at(bytes, spot.start + spot.data_words)
}

// The struct that the pointer at a word leads to.
fn spot_at(bytes: &[u8], at: u64) -> Option<Spot>
    requires { at < 2 ^ 62 }
    ensures is { result ≡ spot_at bytes.now at }
    ensures near { IfSome result (λ spot. IsNear at spot) }
{
    let word = word_at(bytes, at)?;
    spot_by(at, word)
}

fn spot_by(at: u64, word: u64) -> Option<Spot>
    requires { at < 2 ^ 62 }
    ensures is { result ≡ spot_by at word }
    ensures near { IfSome result (λ spot. IsNear at spot) }
{
    if word == 0 || word % 4 != 0 {
        return None;
    }
    let offset = word / 4 % 0x4000_0000;
    if offset >= 0x2000_0000 {
        return None;
    }
    let upper = word / 0x1_0000_0000;
    Some(Spot {
        start: at + 1 + offset,
        data_words: upper % 0x1_0000,
        pointer_words: upper / 0x1_0000,
    })
}

// A word of segment 0.
#[tactic(auto, unfolding(crate::specs::Fronts::word_at, capn_reading::specs::Framing::segment_count))]
fn word_at(bytes: &[u8], at: u64) -> Option<u64>
    ensures { result ≡ word_at bytes.now at }
{
    if bytes.len() < 8 {
        return None;
    }
    if at >= u64::from(u32_at(bytes, 4)) {
        return None;
    }
    let count = u64::from(u32_at(bytes, 0)) + 1;
    let place = 8 * ((count + 2) / 2 + at);
    word_from(bytes, place)
}

fn word_from(bytes: &[u8], place: u64) -> Option<u64>
    requires { place < 2 ^ 63 }
    ensures { result ≡ word_from bytes.now place }
{
    if (bytes.len() as u64) < place + 8 {
        return None;
    }
    let (_, rest) = bytes.split_at(place as usize);
    Some(LittleEndian::read_u64(rest))
}

// The number in the four bytes from `at` on.
fn u32_at(bytes: &[u8], at: usize) -> u32
    requires { at + 4 ≤ length bytes.now }
    ensures { result ≡ little_number 4 (drop at bytes.now) }
{
    let (_, rest) = bytes.split_at(at);
    LittleEndian::read_u32(rest)
}
