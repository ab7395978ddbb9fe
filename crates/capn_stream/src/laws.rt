//! What is proved of streams. These functions run no code: what they ensure is the theorem.
ghost use Rattle.capn_stream.specs.Laws.{FramesAreTheBytes, PiecesDoNotMatter, MessagesAreFrames, FrontsStay};

/// Whatever pieces were handed to a new reader, and whenever frames were taken: the bytes that it took are the frames
/// that it gave, each whole and in order, and then what waits in it. If it failed, what follows its frames begins with
/// no frame.
pub fn frames_are_the_bytes()
    ensures { FramesAreTheBytes }
{}

/// Two readers that took the same bytes, in whatever pieces, and gave all frames that were whole, gave the same frames,
/// and are the same.
pub fn pieces_do_not_matter()
    ensures { PiecesDoNotMatter }
{}

/// The bytes of a message, as the encoding has them, are one frame.
pub fn messages_are_frames()
    ensures { MessagesAreFrames }
{}

/// A frame at the front of a stream, or the fault of what is none, stays as more bytes come.
pub fn fronts_stay()
    ensures { FrontsStay }
{}
