//! What is proved of adapters. The functions run no code: what they ensure are the theorems.
ghost use Rattle.peer_tail_calls.specs.Laws.{CountsOnce, GivesBackOnce, StandsAside};

/// If the peer made no tail call, the vat hears each message of the profile as it came. The peer is told each of the
/// vat's as it went, except for a Release that is sent back, and for pointers to capabilities that are not there, which
/// are null.
pub fn stands_aside()
    ensures { StandsAside }
{}

/// Each count of an export is given once, and what the peer has not seen is taken off once, though tail calls are heard otherwise
/// than they came. Of a peer's export: what a message gave is what the vat hears that it gave. Of the vat's: what the vat gave is
/// what the peer is told, or is held until the vat hears a Finish with a true flag, which takes it off.
pub fn counts_once()
    ensures { CountsOnce }
{}

/// The peer is told of just what the vat gives back, and the vat hears of just what the peer gives back, except for the
/// Finish of a tail call, of which `counts_once` says it. The flag of a Return that takes results is heard once, when
/// they are there.
pub fn gives_back_once()
    ensures { GivesBackOnce }
{}
