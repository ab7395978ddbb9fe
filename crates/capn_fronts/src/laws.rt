//! What is proved of streams. These functions run no code: what they ensure is the theorem.
ghost use Rattle.capn_fronts.specs.Laws.{FrontsAreOfTheFrames, KeepsTheFront, PiecesStand};

/// Whatever pieces a new reader took, and whenever frames were taken from it: the bytes that it took are frames, each whole and
/// in order, and a rest. What it gave is what is to be kept of each frame.
pub fn fronts_are_of_the_frames()
    ensures { FrontsAreOfTheFrames }
{}

/// A frame that has at most as many words as a message may have is kept whole. Of a larger one its table and 1,024 words
/// are kept.
pub fn keeps_the_front()
    ensures { KeepsTheFront }
{}

/// What a reader holds after a piece is of the bytes that came, with those that it took. What it refuses begins with no frame,
/// whatever comes behind it.
pub fn pieces_stand()
    ensures { PiecesStand }
{}
