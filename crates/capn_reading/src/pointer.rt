//! What a word says where a pointer stands.
ghost use Rattle.std.specs.Prelude.{◌≡◌, ◌≤◌};
ghost use Rattle.capn_trees.specs.Widths.{bits_of};
ghost use Rattle.capn_reading.specs.Pointers.{decoded, list_shape, tag_of, words_of};

use capn_trees::Width;

/// What a struct or list pointer says of its content.
#[derive(Clone, Copy)]
pub enum Shape {
    /// A struct: its data words, then its pointers.
    Struct { data_words: u16, pointer_words: u16 },
    /// A list of elements without pointers.
    Packed { width: Width, count: u32 },
    /// A list of pointers.
    Pointers { count: u32 },
    /// A list of structs: a tag, then so many words.
    Composite { words: u32 },
}

/// A pointer word.
#[derive(Clone, Copy)]
pub enum Pointer {
    Null,
    /// A struct or a list that begins `offset` words after the pointer: 30 bits, in two's complement.
    Content {
        offset: u32,
        shape: Shape,
    },
    /// A pad of one or two words in another segment.
    Far {
        is_double: bool,
        offset: u32,
        segment: u32,
    },
    /// A capability, if `middle` is zero.
    Other {
        middle: u32,
        index: u32,
    },
}

/// The tag of a list of structs.
#[derive(Clone, Copy)]
pub struct Tag {
    pub count: u32,
    pub data_words: u16,
    pub pointer_words: u16,
}

impl Pointer {
    /// Reads a word.
    pub fn decode(word: u64) -> Pointer
        ensures { result ≡ decoded word }
    {
        if word == 0 {
            return Pointer::Null;
        }
        let middle = (word / 4 % 0x4000_0000) as u32;
        let upper = (word / 0x1_0000_0000) as u32;
        match word % 4 {
            0 => Pointer::Content {
                offset: middle,
                shape: Shape::Struct {
                    data_words: (upper % 0x1_0000) as u16,
                    pointer_words: (upper / 0x1_0000) as u16,
                },
            },
            1 => Pointer::Content {
                offset: middle,
                shape: Shape::of_list(upper),
            },
            2 => Pointer::Far {
                is_double: middle % 2 == 1,
                offset: middle / 2,
                segment: upper,
            },
            _ => Pointer::Other {
                middle,
                index: upper,
            },
        }
    }
}

impl Shape {
    /// The shape that the upper half of a list pointer says.
    fn of_list(upper: u32) -> Shape
        ensures { result ≡ list_shape upper }
    {
        let count = upper / 8;
        match upper % 8 {
            0 => Shape::Packed {
                width: Width::Void,
                count,
            },
            1 => Shape::Packed {
                width: Width::Bit,
                count,
            },
            2 => Shape::Packed {
                width: Width::Byte,
                count,
            },
            3 => Shape::Packed {
                width: Width::TwoBytes,
                count,
            },
            4 => Shape::Packed {
                width: Width::FourBytes,
                count,
            },
            5 => Shape::Packed {
                width: Width::EightBytes,
                count,
            },
            6 => Shape::Pointers { count },
            _ => Shape::Composite { words: count },
        }
    }

    /// How many words the content takes.
    pub fn words(self) -> u64
        ensures { result ≡ words_of self }
    {
        match self {
            Shape::Struct {
                data_words,
                pointer_words,
            } => u64::from(data_words) + u64::from(pointer_words),
            Shape::Packed { width, count } => (u64::from(count) * u64::from(width.bits())).div_ceil(
                64,
            ),
            Shape::Pointers { count } => u64::from(count),
            Shape::Composite { words } => u64::from(words) + 1,
        }
    }
}

impl Tag {
    /// Reads a word, which is a tag if it is of a struct pointer's kind.
    pub fn decode(word: u64) -> Option<Tag>
        ensures { result ≡ tag_of word }
    {
        if word % 4 != 0 {
            return None;
        }
        let upper = (word / 0x1_0000_0000) as u32;
        Some(Tag {
            count: (word / 4 % 0x4000_0000) as u32,
            data_words: (upper % 0x1_0000) as u16,
            pointer_words: (upper / 0x1_0000) as u16,
        })
    }
}
