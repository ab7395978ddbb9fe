//! The functions run no code: what each ensures is the law.

ghost use Rattle.laws_read_back.specs.ReadBack.{FramesReadBack};

/// The frame of a message that goes out reads back as a message that a vat hears of it over a wire.
pub fn frames_read_back()
    ensures { FramesReadBack }
{}
