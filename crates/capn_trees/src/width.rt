//! The sizes of elements without pointers.
ghost use Rattle.std.specs.Prelude.{◌≡◌, ◌≤◌};
ghost use Rattle.capn_trees.specs.Widths.{bits_of};

/// The size of an element without pointers.
#[derive(Clone, Copy)]
pub enum Width {
    Void,
    Bit,
    Byte,
    TwoBytes,
    FourBytes,
    EightBytes,
}

impl Width {
    /// How many bits an element takes.
    pub fn bits(self) -> u8
        ensures bits { result ≡ bits_of self }
        ensures most { result ≤ 64 }
    {
        match self {
            Width::Void => 0,
            Width::Bit => 1,
            Width::Byte => 8,
            Width::TwoBytes => 16,
            Width::FourBytes => 32,
            Width::EightBytes => 64,
        }
    }
}
