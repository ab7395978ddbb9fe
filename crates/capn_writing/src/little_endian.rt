//! Words and their bytes, the lowest first.
ghost use Rattle.std.specs.Prelude.{◌≡◌, ◌+◌, ◌-◌, ◌*◌, ◌≤◌, ◌++◌, length, take};
ghost use Rattle.capn_writing.specs.Placing.{one_segment, packed_words};

use byteorder::{ByteOrder, LittleEndian};

/// The words of bytes, eight in each, into the place of the words from `at` on.
pub fn read_words(bytes: &[u8], words: &mut [u64], at: usize)
    requires { length bytes.now + 8 * at ≡ 8 * length words.old }
    ensures { words.new ≡ take at words.old ++ packed_words 8 (length words.old - at) bytes.now }
{
    let (_, rest) = words.split_at_mut(at);
    LittleEndian::read_u64_into(bytes, rest);
}

/// The message of one segment, into the place of other bytes.
pub fn write_segment(bytes: &mut [u8], words: &[u64])
    requires few { length words.now ≤ 65536 }
    requires room { length bytes.old ≡ 8 + 8 * length words.now }
    ensures { bytes.new ≡ one_segment words.now }
{
    let (table, rest) = bytes.split_at_mut(8);
    // No segment more than one, and its size.
    LittleEndian::write_u64(table, words.len() as u64 * 0x1_0000_0000);
    LittleEndian::write_u64_into(words, rest);
}
