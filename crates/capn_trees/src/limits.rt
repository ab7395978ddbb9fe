//! The limits on a message, and on a tree that is to be written: docs/encoding.md.

/// How many segments a message may have.
pub const MOST_SEGMENTS: usize = 16;

/// How many words all segments of a message may have together.
pub const MOST_WORDS: u64 = 65_536;

/// How many words reading may visit, those of a content each time that a pointer leads to it.
pub const MOST_VISITED: u64 = 65_536;

/// How deep contents may nest.
pub const MOST_LEVELS: u32 = 64;

/// How deep the contents of a tree behind a pointer may nest. It is more than can be written, so that a tree which is
/// too deep for that is refused there; and few enough for any stack, since a tree is gone through and let go level by
/// level.
pub const MOST_HELD: u32 = 127;

/// How many words a section of a struct may have: its pointer has 16 bits for them.
pub const MOST_SECTION: usize = 65_535;

/// How many elements a list may have: its pointer has 29 bits for them.
pub const MOST_ELEMENTS: u64 = 536_870_911;
